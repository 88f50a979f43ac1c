use jn_base::compare::{has_name, is_anchor, is_name, same_names};
use jn_base::tree::Name;
use jn_base::types::Anchor;

#[test]
fn compares(rt: HostRuntime) {
    let names = [Name(0), Name(1)];
    assert!(rt; is_name(names[0], Name(0)) && !is_name(names[0], names[1]));
    assert!(rt; same_names(&names, &names) && !same_names(&names, &names[1..]));
    assert!(rt; has_name(&names, Name(1)) && !has_name(&names, Name(2)));
    let above = Anchor::Up(3, 1);
    assert!(rt; is_anchor(above, Anchor::Up(3, 1)) && !is_anchor(above, Anchor::Root));
}
