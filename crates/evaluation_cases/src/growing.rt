// Expressions over documents that still grow.

use crate::values::{bound, put, shown};
use case_tables::{begun, whole};
use std::test::Fail;

const THREE: &[u8] = b"(list\n(item\nAk 1";

const FOUR: &[u8] = b"(list\n(item\nAk 1\n-one";

const ITEMS: &[u8] = b"(list\n(item\nAk 1\n-one\n)item\n(item\nAk 2\n-two\n)item\n)list";

// After three and after four lines, and of the whole document.
const VALUES: &str = "\
boolean(/list/item) => not yet 1, true, true
string(/list/item) => not yet 1, not yet 2, 'one'
1 = 1 or count(/list) = 5 => true, true, true
count(//item) => not yet 0, not yet 0, 2
//none = false() => not yet 0, not yet 0, true
/list/item[2]/@k = 2 => not yet 0, not yet 0, true
//item[@k = 1] => not yet 0, not yet 0, [2]
/list/item/@k => not yet 0, not yet 0, [3][6]
1 div 0 + count(//item) => NumberRange, NumberRange, NumberRange
count(//item) + 1 div 0 => not yet 0, not yet 0, NumberRange";

#[test]
fn values_come_with_the_rows_that_they_need(rt: HostRuntime) -> Result<(), Fail> {
    let alloc = rt.alloc();
    let tables = [
        begun(alloc, THREE)?,
        begun(alloc, FOUR)?,
        whole(alloc, ITEMS)?,
    ];
    for row in VALUES.lines() {
        let (source, want) = row.split_once(" => ").unwrap_or((row, "no row"));
        let e = bound(alloc, source, true)?;
        let mut given = String::new(alloc);
        for table in tables.iter() {
            if !given.is_empty() {
                put(&mut given, ", ");
            }
            put(&mut given, shown(alloc, table, &e)?.as_str());
        }
        assert_eq!(rt; given.as_str(), want, "{source:?}");
    }
    Ok(())
}
