// Small pools, and that each call gives its answer where memory is ample.
use crate::{NamePool, PoolError};
use doc_model::Kind;
use std::test::Fail;

#[derive(Clone, Copy)]
enum Call {
    Intern(Kind, &'static str, &'static str),
    Prefix(&'static str),
    Find(Kind, &'static str, &'static str),
}

fn answer(
    alloc: std::alloc::Global,
    pool: &mut NamePool,
    call: Call,
) -> Result<Option<u32>, PoolError> {
    match call {
        Call::Intern(kind, uri, local) => {
            match pool.intern(alloc, kind, uri.as_bytes(), local.as_bytes()) {
                Ok(number) => Ok(Some(number)),
                Err(error) => Err(error),
            }
        }
        Call::Prefix(text) => match pool.prefix(alloc, text.as_bytes()) {
            Ok(number) => Ok(Some(number)),
            Err(error) => Err(error),
        },
        Call::Find(kind, uri, local) => Ok(pool.find(kind, uri.as_bytes(), local.as_bytes())),
    }
}

#[test]
fn numbers_come_in_order_of_first_sight(rt: HostRuntime) -> Result<(), Fail> {
    let alloc = rt.alloc();
    let mut pool = NamePool::start(alloc, 6)?;
    for (call, want) in [
        (Call::Find(Kind::Element, "", "a"), Ok(None)),
        (Call::Intern(Kind::Element, "", "a"), Ok(Some(3))),
        (Call::Intern(Kind::Attribute, "", "a"), Ok(Some(4))),
        (Call::Intern(Kind::Element, "u", "a"), Ok(Some(5))),
        (Call::Intern(Kind::Element, "a", "u"), Ok(Some(6))),
        (Call::Prefix(""), Ok(Some(0))),
        (Call::Prefix("p"), Ok(Some(1))),
        (Call::Prefix("a"), Ok(Some(2))),
        (Call::Prefix("p"), Ok(Some(1))),
        (Call::Intern(Kind::Element, "u", "a"), Ok(Some(5))),
        (
            Call::Intern(Kind::Instruction, "", "a"),
            Err(PoolError::Full),
        ),
        (Call::Prefix("q"), Err(PoolError::Full)),
        (Call::Prefix(""), Ok(Some(0))),
        (Call::Find(Kind::Element, "a", "u"), Ok(Some(6))),
        (Call::Find(Kind::Instruction, "", "a"), Ok(None)),
    ] {
        assert_eq!(rt; answer(alloc, &mut pool, call), want);
    }
    Ok(())
}

#[test]
fn a_pool_of_one(rt: HostRuntime) -> Result<(), Fail> {
    let alloc = rt.alloc();
    let mut pool = NamePool::start(alloc, 1)?;
    for (call, want) in [
        (Call::Intern(Kind::Element, "", "a"), Ok(Some(3))),
        (Call::Intern(Kind::Element, "", "a"), Ok(Some(3))),
        (Call::Intern(Kind::Element, "", "b"), Err(PoolError::Full)),
        (Call::Prefix("p"), Err(PoolError::Full)),
        (Call::Find(Kind::Element, "", "b"), Ok(None)),
    ] {
        assert_eq!(rt; answer(alloc, &mut pool, call), want);
    }
    pool.numbers_tell_names();
    pool.numbers_tell_prefixes();
    Ok(())
}
