use jn_base::path::Path;
use jn_base::tree::Name;
use sqlite_items::Items;
use std::alloc::AllocError;

#[test]
fn goes_up_and_down(rt: HostRuntime) -> Result<(), AllocError> {
    let names = [Name(0), Name(1)];
    let path = Path {
        names: Items::from_slice(rt.alloc(), &names)?,
    };
    for (k, want) in [(0, 2), (1, 1), (2, 0)] {
        let above = path.up(rt.alloc(), k)?;
        assert_eq!(rt; above.names.as_slice(), &names[..want], "up by {k}");
    }
    let below = path.down(rt.alloc(), Name(2))?;
    let want = [Name(0), Name(1), Name(2)];
    assert_eq!(rt; below.names.as_slice(), want.as_slice());
    Ok(())
}
