// The fields of a line, read one after the other.
ghost use Rattle.std.specs.Prelude.{◌≡◌, ◌≤◌, length, Some, None, IfSome};
ghost use Rattle.std.specs.Option.{option_map};
ghost use Rattle.std.specs.List.{prefix_len};
ghost use Rattle.sheet.specs.Fields.{field, number, isin, side, but, paired, next, last, only};

use contribution::Side;

// How many bytes stand before the first that is `end`.
pub(crate) fn length_before(bytes: &[u8], end: u8) -> usize
    ensures value { result ≡ prefix_len (but end) bytes.now }
    ensures bound { result ≤ length bytes.now }
{
    bytes.iter().take_while(|b| **b != end).count()
}

// The most digits of a number.
const DIGITS: usize = 10;

// The value of 1 to 10 digits without a leading zero. A loop: that the sum fits follows from how many digits came before, which a closure cannot be told.
pub(crate) fn number(digits: &[u8]) -> Option<u64>
    ensures { result ≡ number digits.now }
{
    if digits.len() > DIGITS || matches!(digits, [] | [b'0', _, ..]) {
        return None;
    }
    let mut value: u64 = 0;
    for b in digits {
        if !b.is_ascii_digit() {
            return None;
        }
        value = value * 10 + (*b - b'0') as u64;
    }
    Some(value)
}

pub(crate) fn isin(bytes: &[u8]) -> Option<&[u8; 12]>
    ensures { option_map (λ x. x.now) result ≡ isin bytes.now }
{
    bytes.try_into().ok()
}

// The letters are matched here and not by the side's conversion from a byte: each letter of a sheet can be read off its reader.
pub(crate) fn side(letters: &[u8]) -> Option<Side>
    ensures { result ≡ side letters.now }
{
    let [letter] = letters else {
        return None;
    };
    match char::from(*letter) {
        'K' => Some(Side::Bought),
        'S' => Some(Side::Sold),
        _ => None,
    }
}

// The bytes behind the letter of a line.
#[derive(Clone, Copy)]
pub(crate) struct Fields<'a> {
    rest: &'a [u8],
}

impl<'a> Fields<'a> {
    pub(crate) fn new(rest: &'a [u8]) -> Fields<'a>
        ensures { result.rest.now ≡ rest.now }
    {
        Fields { rest }
    }

    // A blank, and the field behind it.
    fn field(&mut self) -> Option<&'a [u8]>
        ensures { paired (option_map (λ x. x.now) result) self.new.rest.now ≡ field self.old.rest.now }
    {
        let text = self.rest.strip_prefix(b" ")?;
        let (field, rest) = text.split_at(length_before(text, b' '));
        self.rest = rest;
        Some(field)
    }

    // The next field, as `read` takes it.
    pub(crate) fn next<T, F: FnOnce(&'a [u8]) -> Option<T>>(&mut self, read: F) -> Option<T>
        requires { F.IsAlwaysCallable read }
        ensures read { IfSome result (λ v. (x : _) × (field self.old.rest.now ≡ Some (x.now, self.new.rest.now)) × F.post read x (Some v)) }
        ensures unread { result ≡ None → IfSome (field self.old.rest.now) (λ f. (x : _) × (x.now ≡ f.0) × F.post read x None) }
    {
        read(self.field()?)
    }

    // Nothing where a field is left.
    pub(crate) fn end(&self) -> Option<()>
        ensures { result ≡ last self.now.rest.now tt }
    {
        self.rest.is_empty().then_some(())
    }

    // The number that is the only field.
    pub(crate) fn only(mut self) -> Option<u64>
        ensures { result ≡ only self.entry.rest.now }
    {
        let number = self.next(number)?;
        self.end()?;
        Some(number)
    }
}
