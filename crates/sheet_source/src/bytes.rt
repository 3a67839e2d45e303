ghost use Rattle.std.specs.Prelude.{◌≡◌, ◌<◌, ◌++◌, min, Some, length, take, drop};
ghost use Rattle.std.specs.Io.{ReadsAtMost};
ghost use Rattle.std.specs.Io.KnownBytes.{ReadConsumes};
ghost use Rattle.edge.specs.Causes.{HasCause};

use edge::{Failed, Source};

/// A source over bytes in memory, which never fails.
#[derive(Drop)]
pub struct Bytes<'a> {
    pub rest: &'a [u8],
}

impl<'a> Source for Bytes<'a> {
    ghost left = { λ s. Some s.rest.now };

    ghost faults = { λ s. 0 };

    fn read(&mut self, into: &mut [u8]) -> Result<usize, Failed>
        requires { 0 < length into.old }
        ensures bound { ReadsAtMost result into.new }
        ensures bytes { ReadConsumes (Some self.old.rest.now) (Some self.new.rest.now) result into.new }
        ensures cause { HasCause 0 0 result }
    {
        let count = copy_front(self.rest, into);
        let (_, rest) = self.rest.split_at(count);
        self.rest = rest;
        Ok(count)
    }
}

// Copies the front of `rest` into the front of `into`, as far as it fits.
fn copy_front(rest: &[u8], into: &mut [u8]) -> usize
    ensures amount { result ≡ min (length rest.now) (length into.new) }
    ensures front { rest.now ≡ take result into.new ++ drop result rest.now }
{
    let count = rest.len().min(into.len());
    into[..count].copy_from_slice(&rest[..count]);
    count
}
