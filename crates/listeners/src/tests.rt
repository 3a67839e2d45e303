ghost use Rattle.std.specs.Prelude.{None};

use crate::{Dropped, Message, tell_all};
use edge::{Failed, Listener, MemoryListener};
use lists::List;
use std::alloc::{AllocError, Global};
use std::cell::{Cell, RefCell};
use std::rc::Rc;
use std::test::Fail;

fn messages(alloc: Global) -> Result<List<Message>, AllocError> {
    let mut messages = List::new(alloc);
    for line in ["1", "2"] {
        let line = List::from_slice(alloc, line.as_bytes())?;
        messages.push(Message { sheet: 0, line })?;
    }
    Ok(messages)
}

fn at(index: u32, heard: u64) -> Dropped {
    Dropped { index, heard }
}

// Of four listeners the first fails at its second call, the third at its first and the last at its fifth.
#[test]
fn a_failing_listener_leaves_the_others(rt: HostRuntime) -> Result<(), Fail> {
    let alloc = rt.alloc();
    let mut listeners: Vec<Box<dyn Listener>> = Vec::new(alloc);
    for failing in [&[2][..], &[][..], &[1][..], &[5][..]] {
        let listener = MemoryListener::make(alloc, failing, 1000)?;
        listeners.push(Box::new(alloc, listener)?)?;
    }
    let messages = messages(alloc)?;
    let both = [at(0, 1), at(2, 0)];
    for (want, left) in [(&both[..], 2), (&[][..], 2), (&[at(1, 0)][..], 1)] {
        assert!(rt; listeners.len() <= 64);
        let dropped = tell_all(alloc, &mut listeners, messages.as_slice())?;
        assert_eq!(rt; dropped.as_slice(), want);
        assert_eq!(rt; listeners.len(), left);
    }
    Ok(())
}

// What a listener heard, and how often one was dropped.
#[derive(Drop)]
struct Seen {
    heard: RefCell<Vec<u8>>,
    drops: Cell<u32>,
}

// A listener that tells nothing of itself, and is seen from outside. The call of this number fails.
struct Watched {
    seen: Rc<Seen>,
    failing: u32,
    calls: u32,
    faults: u64,
}

impl Drop for Watched {
    fn drop(self) {
        let Watched {
            seen,
            failing: _,
            calls: _,
            faults: _,
        } = self;
        seen.drops.set(seen.drops.get().saturating_add(1));
    }
}

impl Listener for Watched {
    ghost heard = { λ l. None };

    ghost hearing = { λ l. None };

    ghost faults = { λ l. l.faults };

    fn hear(&mut self, _sheet: u32, line: &[u8]) -> Result<(), Failed> {
        self.calls = self.calls.saturating_add(1);
        if self.calls != self.failing && kept(&self.seen, line) {
            return Ok(());
        }
        self.faults = self.faults.saturating_add(1);
        Err(Failed)
    }
}

fn kept(seen: &Seen, line: &[u8]) -> bool {
    match seen.heard.try_borrow_mut() {
        Ok(mut heard) => heard.extend_from_slice(line).is_ok(),
        Err(_) => false,
    }
}

fn watch(alloc: Global) -> Result<Rc<Seen>, AllocError> {
    let heard = Vec::with_capacity(alloc, 10)?;
    let seen = Seen {
        heard: RefCell::new(heard),
        drops: Cell::new(0),
    };
    Ok(Rc::new(alloc, seen)?)
}

fn is_as(seen: &Seen, heard: &[u8], drops: u32) -> bool {
    match seen.heard.try_borrow() {
        Ok(all) => all.as_slice() == heard && seen.drops.get() == drops,
        Err(_) => false,
    }
}

// Of two listeners the first fails at its second call: it heard what came before, is dropped once, and hears no more.
#[test]
fn a_dropped_listener_heard_what_came_before(rt: HostRuntime) -> Result<(), Fail> {
    let alloc = rt.alloc();
    let (first, second) = (watch(alloc)?, watch(alloc)?);
    let mut listeners: Vec<Box<dyn Listener>> = Vec::new(alloc);
    for (seen, failing) in [(&first, 2), (&second, 0)] {
        let listener = Watched {
            seen: seen.clone()?,
            failing,
            calls: 0,
            faults: 0,
        };
        listeners.push(Box::new(alloc, listener)?)?;
    }
    let messages = messages(alloc)?;
    for (want, heard) in [(&[at(0, 1)][..], "12"), (&[][..], "1212")] {
        assert!(rt; listeners.len() <= 64);
        let dropped = tell_all(alloc, &mut listeners, messages.as_slice())?;
        assert_eq!(rt; dropped.as_slice(), want);
        assert!(rt; is_as(&first, b"1", 1));
        assert!(rt; is_as(&second, heard.as_bytes(), 0));
    }
    drop(listeners);
    assert!(rt; is_as(&first, b"1", 1));
    assert!(rt; is_as(&second, b"1212", 1));
    Ok(())
}
