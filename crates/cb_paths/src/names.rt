//! The names that platforms, problems and applications may have.
ghost use Rattle.std.specs.Prelude.{◌≡◌};
ghost use Rattle.std.specs.List.{list_all};
ghost use Rattle.cb_paths.specs.Names.{is_name, is_name_byte};

/// The bytes of a name at most.
pub const NAME_BYTE_LIMIT: usize = 64;

/// Whether a byte may stand in a name.
#[tactic(auto, unfolding(crate::specs::Names::is_name_byte))]
fn is_name_byte(byte: u8) -> bool
    ensures { result ≡ is_name_byte byte }
{
    if byte < b' ' || byte > b'~' {
        return false;
    }
    !(byte == b',' || byte == b'{' || byte == b'}' || byte == b'"')
}

/// Whether each byte may stand in a name.
fn are_name_bytes(bytes: &[u8]) -> bool
    ensures { result ≡ list_all is_name_byte bytes.now }
{
    bytes.iter().all(|byte| is_name_byte(*byte))
}

/// Whether bytes are a name: 1 to 64 bytes of printable ASCII other than `,`, `{`, `}` and `"`, with no space at either end.
#[tactic(auto, unfolding(crate::specs::Names::is_name))]
pub fn is_name(bytes: &[u8]) -> bool
    ensures { result ≡ is_name bytes.now }
{
    if bytes.len() == 0 || bytes.len() > NAME_BYTE_LIMIT {
        return false;
    }
    if bytes[0] == b' ' || bytes[bytes.len() - 1] == b' ' {
        return false;
    }
    are_name_bytes(bytes)
}
