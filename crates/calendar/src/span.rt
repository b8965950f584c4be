// A part of a year's hours, from its first hour up to the first hour after it.
ghost use Rattle.std.specs.Prelude.{◌≤◌};

#[derive(Clone, Copy, PartialEq, Eq, Hash, Debug)]
pub struct Span {
    pub first: u16,
    pub end: u16,
    ghost forward: { first ≤ end },
    ghost within: { end ≤ 8784 },
}
