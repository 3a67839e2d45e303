use crate::{in_order, union};
use lists::List;
use std::test::Fail;

#[test]
fn nodes_come_in_document_order(rt: HostRuntime) -> Result<(), Fail> {
    let alloc = rt.alloc();
    for (left, right, want) in [
        ([].as_slice(), [].as_slice(), [].as_slice()),
        ([2, 5].as_slice(), [].as_slice(), [2, 5].as_slice()),
        ([5, 2, 5].as_slice(), [9].as_slice(), [2, 5, 9].as_slice()),
        (
            [1, 4, 7].as_slice(),
            [0, 4, 8].as_slice(),
            [0, 1, 4, 7, 8].as_slice(),
        ),
        ([3, 3].as_slice(), [3].as_slice(), [3].as_slice()),
    ] {
        let nodes = List::from_slice(alloc, left)?;
        assert_eq!(rt; union(alloc, nodes, right)?.as_slice(), want);
    }
    let nodes = List::from_slice(alloc, [7, 0, 4_294_967_295, 0].as_slice())?;
    assert_eq!(rt;
        in_order(alloc, nodes)?.as_slice(),
        [0, 7, 4_294_967_295].as_slice()
    );
    Ok(())
}
