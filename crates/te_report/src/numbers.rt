ghost use Rattle.std.specs.Prelude.{◌≡◌, ◌^◌, ◌<◌, ℕ, Some, None, nat_lt, if◌then◌else◌, pos, ◌-ℤ◌};
ghost use Rattle.te_report.specs.Sayings.{decimal_value, said_number, said_ticket, said_integer, fitting_number};

// The number of some digits, where it is one of 64 bits.
fn value(digits: &[u8]) -> Option<u64>
    ensures { result ≡ (if nat_lt (decimal_value 0 digits.now) (2 ^ 64) then Some (decimal_value 0 digits.now) else None) }
{
    let mut size: u128 = 0;
    for digit in digits {
        if size > 20_000_000_000_000_000_000 {
            return None;
        }
        size = size * 10 + digit.saturating_sub(b'0') as u128;
    }
    if size > 18_446_744_073_709_551_615 {
        None
    } else {
        Some(size as u64)
    }
}

/// The number of some digits; 0 where it isn't one of 64 bits.
#[tactic(auto, unfolding(crate::specs::Sayings::said_number))]
pub(crate) fn number(digits: &[u8]) -> u64
    ensures { result ≡ said_number digits.now }
{
    match value(digits) {
        Some(n) => n,
        None => 0,
    }
}

/// The number of some digits; 0 where it isn't one of 32 bits.
pub(crate) fn ticket(digits: &[u8]) -> u32
    ensures { result ≡ said_ticket digits.now }
{
    let n = number(digits);
    if n < 4_294_967_296 { n as u32 } else { 0 }
}

fn negative(digits: &[u8]) -> Option<i64>
    ensures { result ≡ fitting_number (pos 0 -ℤ pos (decimal_value 0 digits.now)) }
{
    match value(digits) {
        Some(size) => 0i64.checked_sub_unsigned(size),
        None => None,
    }
}

fn positive(digits: &[u8]) -> Option<i64>
    ensures { result ≡ fitting_number (pos (decimal_value 0 digits.now)) }
{
    match value(digits) {
        Some(size) => 0i64.checked_add_unsigned(size),
        None => None,
    }
}

/// The integer of some digits, or of `-` and some digits; 0 where it isn't one of 64 bits.
#[tactic(auto, unfolding(crate::specs::Sayings::said_integer))]
pub(crate) fn integer(spelling: &[u8]) -> i64
    ensures { result ≡ said_integer spelling.now }
{
    let found = match spelling {
        [b'-', digits @ ..] => negative(digits),
        digits => positive(digits),
    };
    match found {
        Some(z) => z,
        None => 0,
    }
}
