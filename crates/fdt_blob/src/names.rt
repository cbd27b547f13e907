//! The names of nodes and of properties.

ghost use Rattle.std.specs.Prelude.{◌≡◌};
ghost use Rattle.std.specs.List.{list_all};
ghost use Rattle.fdt_blob.specs.Trees.{is_name_byte as name_byte, is_property_byte as property_byte, is_node_name as node_name, is_property_name as property_name};

/// The most bytes of a name.
const NAME_BYTES: usize = 31;

/// Whether these bytes are the name of a node other than the root: 1 to 31 bytes of `0-9 a-z A-Z , . _ + -`.
pub(crate) fn is_node_name(name: &[u8]) -> bool
    ensures { result ≡ node_name name.now }
{
    !name.is_empty() && name.len() <= NAME_BYTES && has_name_bytes(name)
}

/// Whether these bytes are the name of a property: 1 to 31 bytes of `0-9 a-z A-Z , . _ + ? # -`.
pub(crate) fn is_property_name(name: &[u8]) -> bool
    ensures { result ≡ property_name name.now }
{
    !name.is_empty() && name.len() <= NAME_BYTES && has_property_bytes(name)
}

/// Whether a node's name may have each of these bytes.
fn has_name_bytes(name: &[u8]) -> bool
    ensures { result ≡ list_all name_byte name.now }
{
    name.iter().all(|b| is_name_byte(*b))
}

/// Whether a property's name may have each of these bytes.
fn has_property_bytes(name: &[u8]) -> bool
    ensures { result ≡ list_all property_byte name.now }
{
    name.iter().all(|b| is_property_byte(*b))
}

/// Whether a node's name may have this byte.
fn is_name_byte(b: u8) -> bool
    ensures { result ≡ name_byte b }
{
    matches!(b, b'0'..=b'9' | b'A'..=b'Z' | b'a'..=b'z' | b',' | b'.' | b'_' | b'+' | b'-')
}

/// Whether a property's name may have this byte.
fn is_property_byte(b: u8) -> bool
    ensures { result ≡ property_byte b }
{
    is_name_byte(b) || b == b'?' || b == b'#'
}
