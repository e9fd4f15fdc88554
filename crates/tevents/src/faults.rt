ghost use Rattle.std.specs.Prelude.{◌≡◌, ◌++◌, OnOk};
ghost use Rattle.std.specs.Fmt.{decimal};
ghost use Rattle.te_reader.specs.declared.fault.ScriptFault.TheVariants.{Limit};
ghost use Rattle.tevents.specs.FaultLines.{which_text, place_text, fault_line};

use itoa::Buffer;
use te_reader::{Place, ScriptFault, Which};
use te_terms::NoMemory;

/// The name of a limit.
fn which_text(which: Which) -> &'static [u8]
    ensures { result.now ≡ which_text which }
{
    match which {
        Which::Bytes => b"bytes",
        Which::Name => b"name",
        Which::Channels => b"channels",
        Which::Threads => b"threads",
        Which::Statements => b"statements",
        Which::Registers => b"registers",
        Which::Atoms => b"atoms",
        Which::Nodes => b"nodes",
        Which::Depth => b"depth",
        Which::Fresh => b"fresh",
        Which::Repeat => b"repeat",
    }
}

/// Appends a number.
pub(crate) fn put_number(out: &mut Vec<u8>, n: u64) -> Result<(), NoMemory>
    ensures { OnOk result (out.new.items ≡ out.old.items ++ decimal n) }
{
    out.extend_from_slice(Buffer::new().format(n).as_bytes())?;
    Ok(())
}

/// Appends the front of a line, the name of a limit, what stands behind it, and the place.
fn put_placed(
    out: &mut Vec<u8>,
    front: &[u8],
    which: &[u8],
    behind: &[u8],
    place: Place,
) -> Result<(), NoMemory>
    ensures { OnOk result (out.new.items ≡ out.old.items ++ (front.now ++ which.now ++ behind.now ++ place_text place)) }
{
    out.extend_from_slice(front)?;
    out.extend_from_slice(which)?;
    out.extend_from_slice(behind)?;
    out.extend_from_slice(b" at ")?;
    put_number(out, place.line as u64)?;
    out.extend_from_slice(b":")?;
    put_number(out, place.column as u64)?;
    out.extend_from_slice(b"\n")?;
    Ok(())
}

/// Appends the line of a limit that is passed.
fn put_limit(out: &mut Vec<u8>, which: Which, place: Place) -> Result<(), NoMemory>
    ensures { OnOk result (out.new.items ≡ out.old.items ++ fault_line (Limit which place)) }
{
    put_placed(out, b"script fault 9 (", which_text(which), b")", place)
}

/// Appends the line that tells a fault; nothing for want of memory.
pub(crate) fn put_fault(out: &mut Vec<u8>, fault: ScriptFault) -> Result<(), NoMemory>
    ensures { OnOk result (out.new.items ≡ out.old.items ++ fault_line fault) }
{
    match fault {
        ScriptFault::Bytes(place) => put_placed(out, b"script fault 1", b"", b"", place),
        ScriptFault::Token(place) => put_placed(out, b"script fault 2", b"", b"", place),
        ScriptFault::Syntax(place) => put_placed(out, b"script fault 3", b"", b"", place),
        ScriptFault::Integer(place) => put_placed(out, b"script fault 4", b"", b"", place),
        ScriptFault::Unbound(place) => put_placed(out, b"script fault 5", b"", b"", place),
        ScriptFault::Twice(place) => put_placed(out, b"script fault 6", b"", b"", place),
        ScriptFault::Shadow(place) => put_placed(out, b"script fault 7", b"", b"", place),
        ScriptFault::NoThread(place) => put_placed(out, b"script fault 8", b"", b"", place),
        ScriptFault::Limit(which, place) => put_limit(out, which, place),
        ScriptFault::Memory => Ok(()),
    }
}
