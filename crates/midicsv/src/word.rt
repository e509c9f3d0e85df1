// Words compared, case ignored.
ghost use Rattle.std.specs.Prelude.{◌≡◌};
ghost use Rattle.midicsv.specs.Names.{same_name};

// Whether two names are the same.
pub fn same_name(part: &[u8], name: &[u8]) -> bool
    ensures { result ≡ same_name part.now name.now }
{
    part.eq_ignore_ascii_case(name)
}
