ghost use Rattle.std.specs.Prelude.{◌≡◌, nat_le, if◌then◌else◌, pos, ◌-ℤ◌};
ghost use Rattle.te_reader.specs.Integers.{digits_value, integer_value};
ghost use Rattle.te_reader.specs.NameReads.{fitting, integer_read};
ghost use Rattle.te_reader.specs.Reads.{repeats_in};

/// The integer of an INT token, where it is one of 64 bits.
#[tactic(auto, unfolding(crate::specs::NameReads::integer_read))]
pub fn integer(spelling: &[u8]) -> Option<i64>
    ensures { result ≡ integer_read spelling.now }
{
    match spelling {
        [b'-', digits @ ..] => negative(digits),
        digits => positive(digits),
    }
}

/// How often a repeat is done, where it is from 1 to 10,000 times.
pub fn count(spelling: &[u8]) -> Option<u32>
    ensures { result ≡ repeats_in (integer_value spelling.now) }
{
    match spelling {
        [b'-', _digits @ ..] => None,
        digits => positive_count(digits),
    }
}

fn positive_count(digits: &[u8]) -> Option<u32>
    ensures { result ≡ repeats_in (pos (digits_value 0 digits.now)) }
{
    match number(digits) {
        Some(times) => {
            if times >= 1 && times <= 10_000 {
                Some(times as u32)
            } else {
                None
            }
        }
        None => None,
    }
}

fn negative(digits: &[u8]) -> Option<i64>
    ensures { result ≡ fitting (pos 0 -ℤ pos (digits_value 0 digits.now)) }
{
    match number(digits) {
        Some(size) => 0i64.checked_sub_unsigned(size),
        None => None,
    }
}

fn positive(digits: &[u8]) -> Option<i64>
    ensures { result ≡ fitting (pos (digits_value 0 digits.now)) }
{
    match number(digits) {
        Some(size) => 0i64.checked_add_unsigned(size),
        None => None,
    }
}

// The number of some digits, where it is at most 2 to the 63.
fn number(digits: &[u8]) -> Option<u64>
    ensures { result ≡ (if nat_le (digits_value 0 digits.now) 9223372036854775808 then Some (digits_value 0 digits.now) else None) }
{
    let mut size: u64 = 0;
    for digit in digits {
        if size > 922_337_203_685_477_580 {
            return None;
        }
        size = size * 10 + digit.saturating_sub(b'0') as u64;
    }
    if size > 9_223_372_036_854_775_808 {
        None
    } else {
        Some(size)
    }
}
