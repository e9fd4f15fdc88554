use crate::cause::Which;
use crate::place::Place;

/// Why a text was not read as a script. The first place in the text that has a fault decides, and at one
/// place the lowest number; where two limits are passed at one place, `Depth` comes before `Nodes`, and of any
/// other two the one that `Which` names first.
#[derive(Clone, Copy, Debug, PartialEq, Eq)]
pub enum ScriptFault {
    /// 1: a byte outside comments that is neither blank nor 33 to 126.
    Bytes(Place),
    /// 2: a byte 33 to 126 that begins no token.
    Token(Place),
    /// 3: the first token, or the end, with which the tokens so far begin no script.
    Syntax(Place),
    /// 4: an integer that isn't one of 64 bits.
    Integer(Place),
    /// 5: a name that isn't of the kind that its place needs.
    Unbound(Place),
    /// 6: the second of two equal names of channels or of threads.
    Twice(Place),
    /// 7: a register with a channel's name, or an inner name that may not be bound there.
    Shadow(Place),
    /// 8: the end of a script without a thread.
    NoThread(Place),
    /// 9: a limit is passed.
    Limit(Which, Place),
    /// 10: there was no memory.
    Memory,
}
