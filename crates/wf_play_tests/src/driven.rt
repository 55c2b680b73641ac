//! Servers that answer invented numbers: `drive` gives just these, in order.
ghost use Rattle.std.specs.Prelude.{◌≡◌, not, Bool, if◌then◌else◌, ⊤};

use std::test::Fail;
use wf_drive::{Driven, Servers, drive};
use wf_model::List;

// Whether an odd number of lines was acted.
#[derive(Drop)]
struct Liar {
    odd: bool,
}

impl Servers for Liar {
    type Line = u64;

    type Reply = u64;

    type Ending = bool;

    type Fault = ();

    ghost State = { Bool };

    ghost state = { λ c. c.odd };

    ghost fits = { λ s lines. ⊤ };

    ghost acts = { λ s line reply t. (reply ≡ (if s then 9000 else 7000)) × (t ≡ not s) };

    ghost finishes = { λ s ending t. (ending ≡ s) × (t ≡ s) };

    ghost may_refuse = { λ s line fault. ⊥ };

    ghost may_break = { λ s fault. ⊥ };

    fn act(&mut self, _line: &u64) -> Result<u64, ()> {
        let reply = if self.odd { 9000 } else { 7000 };
        self.odd = !self.odd;
        Ok(reply)
    }

    fn finish(&mut self) -> Result<bool, ()> {
        Ok(self.odd)
    }

    ghost first_fits = { λ s x xs h. tt };

    ghost others_fit = { λ s x xs r t h did. tt };
}

#[test]
fn gives_what_the_servers_answer(rt: HostRuntime) -> Result<(), Fail> {
    let alloc = rt.alloc();
    let mut lines = List::new(alloc);
    lines.push((3, 1))?;
    lines.push((5, 1))?;
    lines.push((8, 1))?;
    let mut servers = Liar { odd: false };
    let driven = drive(alloc, &mut servers, &lines);
    assert!(rt; driven.is_ok());
    if let Ok(Driven { replies, ending }) = driven {
        assert!(rt; replies.as_slice() == [(3, 7000), (5, 9000), (8, 7000)].as_slice());
        assert!(rt; ending);
    }
    Ok(())
}
