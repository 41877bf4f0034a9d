// The kind of a table, by the first line of the input.
ghost use Rattle.std.specs.Prelude.{◌≡◌, length};
ghost use Rattle.listing.specs.Text.{line_of, has_type, has_addend, first_line};

#[derive(Clone, Copy, PartialEq, Eq, Debug)]
pub enum Kind {
    Relr32,
    Relr64,
    Apr1,
    Apa1,
    Relleb32,
    Relleb64,
}

impl Kind {
    // Whether a record has a type and a symbol.
    pub fn has_type(self) -> bool
        ensures { result ≡ has_type self }
    {
        match self {
            Kind::Relleb32 | Kind::Relleb64 => true,
            _ => false,
        }
    }

    // Whether a record has an addend.
    pub fn has_addend(self) -> bool
        ensures { result ≡ has_addend self }
    {
        match self {
            Kind::Apa1 | Kind::Relleb32 | Kind::Relleb64 => true,
            _ => false,
        }
    }

    // The bytes of the first line, its line feed included.
    pub fn line_len(self) -> usize
        ensures { result ≡ length (line_of self) }
    {
        match self {
            Kind::Relr32 | Kind::Relr64 => 7,
            Kind::Apr1 | Kind::Apa1 => 5,
            Kind::Relleb32 | Kind::Relleb64 => 9,
        }
    }
}

// The kind that the first line names: the whole line, to the byte. (A loop over the kinds would need them and their lines in a table, and says no more.)
#[tactic(auto, unfolding(crate::specs::Text::first_line))]
pub fn first_line(input: &[u8]) -> Option<Kind>
    ensures { result ≡ first_line input.now }
{
    if records::starts_with(input, b"relr32\n") {
        return Some(Kind::Relr32);
    }
    if records::starts_with(input, b"relr64\n") {
        return Some(Kind::Relr64);
    }
    if records::starts_with(input, b"apr1\n") {
        return Some(Kind::Apr1);
    }
    if records::starts_with(input, b"apa1\n") {
        return Some(Kind::Apa1);
    }
    if records::starts_with(input, b"relleb32\n") {
        return Some(Kind::Relleb32);
    }
    if records::starts_with(input, b"relleb64\n") {
        return Some(Kind::Relleb64);
    }
    None
}
