// Names and locations: which are valid.
ghost use Rattle.std.specs.Prelude.{◌≡◌};
ghost use Rattle.packet.specs.Names.{is_name_byte, all_name_bytes, valid_name, valid_location};

const LONGEST_NAME: usize = 27;

pub const LONGEST_LOCATION: usize = 64;

#[tactic(auto, unfolding(crate::specs::Names::is_name_byte, crate::specs::Names::is_letter, crate::specs::Names::between))]
fn is_name_byte(byte: u8) -> bool
    ensures { result ≡ is_name_byte byte }
{
    byte.is_ascii_alphanumeric() || byte == b'-' || byte == b'_'
}

fn all_name_bytes(name: &[u8]) -> bool
    ensures { result ≡ all_name_bytes name.now }
{
    name.iter().all(|byte| is_name_byte(*byte))
}

// Whether a name is valid: 1 to 27 letters, digits, hyphens and underscores, the first a letter.
#[tactic(auto, unfolding(crate::specs::Names::valid_name, crate::specs::Names::is_letter, crate::specs::Names::between))]
pub fn valid_name(name: &[u8]) -> bool
    ensures { result ≡ valid_name name.now }
{
    (1..=LONGEST_NAME).contains(&name.len())
        && name[0].is_ascii_alphabetic()
        && all_name_bytes(name)
}

// Whether a location is valid: 1 to 64 bytes.
#[tactic(auto, unfolding(crate::specs::Names::valid_location, crate::specs::Names::between))]
pub fn valid_location(location: &[u8]) -> bool
    ensures { result ≡ valid_location location.now }
{
    (1..=LONGEST_LOCATION).contains(&location.len())
}
