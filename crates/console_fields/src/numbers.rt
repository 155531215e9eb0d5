// Numbers of a line: decimal, without leading zeros, below 2^32.
ghost use Rattle.std.specs.Prelude.{◌≡◌};
ghost use Rattle.console_fields.specs.Field.{number_of};
ghost use Rattle.console_fields.specs.Scan.{scanned};

// The value of a field of digits; none where another byte is among them, or where it does not fit.
#[tactic(auto, using(crate::proofs::Scans::scan_steps), unfolding(crate::specs::Field::is_digit))]
fn scan(field: &[u8]) -> Option<u32>
    ensures { result ≡ scanned 0 field.now }
{
    let mut value: u32 = 0;
    for c in field {
        if !c.is_ascii_digit() {
            return None;
        }
        value = value.checked_mul(10)?.checked_add(u32::from(*c - b'0'))?;
    }
    Some(value)
}

// The number that a field says; none where it says none.
#[tactic(auto, using(crate::proofs::Scans::number_cases))]
pub fn read_number(field: &[u8]) -> Option<u32>
    ensures { result ≡ number_of field.now }
{
    match field {
        [] => None,
        [b'0', _, ..] => None,
        _ => scan(field),
    }
}
