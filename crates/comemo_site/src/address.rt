//! Addresses: where a link leads, and how the name of a page stands in one.
ghost use Rattle.std.specs.Prelude.{◌≡◌};
ghost use Rattle.comemo_site.specs.Addresses.{is_outside, is_unreserved, leads_out};

/// Whether a link is an address of another place than its site: it names its scheme.
pub fn is_outside(target: &str) -> bool
    ensures { result ≡ is_outside target.now }
{
    let bytes = target.as_bytes();
    bytes.starts_with(b"https:") || bytes.starts_with(b"http:") || bytes.starts_with(b"mailto:")
}

/// Whether a name leads out of the folder of its site: it begins with a slash, or a part of it is `..`.
pub fn leads_out(name: &str) -> bool
    ensures { result ≡ leads_out name.now }
{
    name.as_bytes().starts_with(b"/") || name.split('/').any(|part| part == "..")
}

/// Whether a byte of a name stands in an address as it is.
pub fn is_unreserved(byte: u8) -> bool
    ensures { result ≡ is_unreserved byte }
{
    byte.is_ascii_alphanumeric() || b"-._~/".contains(&byte)
}
