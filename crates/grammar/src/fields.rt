// The fields of a line: what stands between its spaces.
ghost use Rattle.std.specs.Prelude.{◌≡◌, ◌∷◌, ◌==◌};
ghost use Rattle.grammar.specs.Grammar.{fields, number_of, first_number, tail, no_more};
ghost use Rattle.grammar.specs.Steps.{behind, left};

const MOST_DIGITS: usize = 10;

// The fields that are still to be read.
#[derive(Clone, Copy)]
pub struct Fields<'a> {
    // What stands behind the next space, if there is one.
    rest: Option<&'a [u8]>,
}

fn is_space(b: u8) -> bool
    ensures { result ≡ (b == 32) }
{
    b == b' '
}

// The first field, and what stands behind the space that ends it.
fn cut(bytes: &[u8]) -> (&[u8], Option<&[u8]>)
    ensures { fields bytes.now ≡ result.0.now ∷ behind result.1 }
{
    match bytes.iter().position(|b| is_space(*b)) {
        Some(end) => (&bytes[..end], Some(&bytes[end + 1..])),
        None => (bytes, None),
    }
}

// The number that the field is.
fn number(field: &[u8]) -> Option<u64>
    ensures { result ≡ number_of field.now }
{
    if field.is_empty() || field.len() > MOST_DIGITS {
        return None;
    }
    let mut n = 0;
    for b in field {
        if !b.is_ascii_digit() {
            return None;
        }
        n = 10 * n + u64::from(b - b'0');
    }
    Some(n)
}

impl<'a> Fields<'a> {
    // The first field of a line, and the fields behind it.
    pub fn of(line: &'a [u8]) -> (&'a [u8], Fields<'a>)
        ensures { fields line.now ≡ result.0.now ∷ left result.1 }
    {
        let (first, rest) = cut(line);
        (first, Fields { rest })
    }

    // The number in the next field, which is then read.
    pub fn number(&mut self) -> Option<u64>
        ensures value { result ≡ first_number (left self.old) }
        ensures rest { left self.new ≡ tail (left self.old) }
    {
        let (field, rest) = cut(self.rest?);
        self.rest = rest;
        number(field)
    }

    // Whether every field was read.
    pub fn is_empty(&self) -> bool
        ensures { result ≡ no_more (left self.now) }
    {
        self.rest.is_none()
    }
}
