use jn_normal::rows::rows_of_normal_forms;
use jn_reach::{chains_are_least, classes_are_least, origins_are_one, sets_are_least};
use jn_subtype::judges_stay;

#[test]
fn laws_are_called() {
    chains_are_least();
    classes_are_least();
    origins_are_one();
    sets_are_least();
    rows_of_normal_forms();
    judges_stay();
}
