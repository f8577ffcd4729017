//! Each public call once, with its answer.

ghost use Rattle.std.specs.Prelude.{◌≡◌, ◌<◌, ◌+◌};

use crate::{Code, MAX_TEXT, Pos, code_name, open_steps};
use std::marker::Brand;
use std::sync::ledger::{Blank, Ledger};

#[test]
fn names_of_codes(rt: HostRuntime) {
    assert_eq!(rt; code_name(Code::BadByte), "BadByte");
    assert_eq!(rt; code_name(Code::BranchCount), "BranchCount");
}

#[test]
fn places_of_bytes(rt: HostRuntime) {
    let second = Pos::FIRST.after(b'a');
    assert_eq!(rt; second, Pos { line: 1, col: 2 });
    assert_eq!(rt; second.after(b'\n'), Pos { line: 2, col: 1 });
    assert_eq!(rt; MAX_TEXT, 1_048_576);
}

fn two_steps<L: Ledger>(blank: Blank) -> u64
    requires name { blank.name ≡ L.name }
    requires parts { blank.parts ≡ L.parts }
    requires some { 0 < blank.parts }
    ensures { result ≡ 2 }
{
    let mut steps = open_steps::<L>(blank);
    steps.tick();
    steps.tick();
    steps.count()
}

#[test]
fn steps_are_counted(rt: HostRuntime) {
    assert_eq!(rt; two_steps::<Brand>(Blank::new(1)), 2);
}
