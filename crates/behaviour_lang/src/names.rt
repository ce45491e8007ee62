//! How names are spelled.
ghost use Rattle.std.specs.Prelude.{◌≡◌, ◌<◌, IfSome};
ghost use Rattle.std.specs.List.{list_all};
ghost use Rattle.behaviour_lang.specs.Names.{has_first_letter, is_behaviour_name, is_digit, is_local_name, is_name_byte, is_numbered, message_number, number_below_16, number_from_10};

/// Whether a behaviour may have this name: 1 to 32 characters of `a` to `z`, `0` to `9` and `_`. Linear time in at most
/// 32 characters.
#[tactic(auto, unfolding(crate::specs::Names::is_behaviour_name))]
pub fn is_behaviour_name(name: &[u8]) -> bool
    ensures { result ≡ is_behaviour_name name.now }
{
    !name.is_empty() && name.len() <= 32 && has_name_bytes(name)
}

/// Whether a reference may have this name: 1 to 16 characters, the first `a` to `z`, the others `a` to `z`, `0` to `9`
/// and `_`; it is not `self` and not `m` followed by digits alone. Linear time in at most 16 characters.
#[tactic(auto, unfolding(crate::specs::Names::is_local_name))]
pub fn is_local_name(name: &[u8]) -> bool
    ensures { result ≡ is_local_name name.now }
{
    name.len() <= 16
        && has_first_letter(name)
        && has_name_bytes(name)
        && name != b"self".as_slice()
        && !is_numbered(name)
}

/// The k of the message name `mk`, from 0 to 15; None exactly for other texts. Constant time.
#[tactic(auto, unfolding(crate::specs::Names::message_number))]
pub fn message_number(name: &[u8]) -> Option<u8>
    ensures value { result ≡ message_number name.now }
    ensures in_range { IfSome result (λ k. k < 16) }
{
    match name.split_first() {
        Some((b'm', digits)) => number_below_16(digits),
        _ => None,
    }
}

/// The number that is spelled so, from 0 to 15.
fn number_below_16(digits: &[u8]) -> Option<u8>
    ensures value { result ≡ number_below_16 digits.now }
    ensures in_range { IfSome result (λ k. k < 16) }
{
    let (first, others) = digits.split_first()?;
    if !is_digit(*first) {
        return None;
    }
    match others.split_first() {
        None => Some(*first - b'0'),
        Some((unit, rest)) => number_from_10(*first, *unit, rest),
    }
}

/// The same for two digits and more.
fn number_from_10(ten: u8, unit: u8, rest: &[u8]) -> Option<u8>
    ensures value { result ≡ number_from_10 ten unit rest.now }
    ensures in_range { IfSome result (λ k. k < 16) }
{
    if ten == b'1' && b'0' <= unit && unit <= b'5' && rest.is_empty() {
        Some(unit - b'0' + 10)
    } else {
        None
    }
}

fn is_digit(b: u8) -> bool
    ensures { result ≡ is_digit b }
{
    b'0' <= b && b <= b'9'
}

fn is_name_byte(b: u8) -> bool
    ensures { result ≡ is_name_byte b }
{
    (b'a' <= b && b <= b'z') || is_digit(b) || b == b'_'
}

fn has_name_bytes(name: &[u8]) -> bool
    ensures { result ≡ list_all is_name_byte name.now }
{
    name.iter().all(|b| is_name_byte(*b))
}

fn has_first_letter(name: &[u8]) -> bool
    ensures { result ≡ has_first_letter name.now }
{
    match name {
        [] => false,
        [first, ..] => b'a' <= *first && *first <= b'z',
    }
}

/// Whether the name is `m` followed by digits alone, at least one.
fn is_numbered(name: &[u8]) -> bool
    ensures { result ≡ is_numbered name.now }
{
    match name.split_first() {
        Some((b'm', digits)) => !digits.is_empty() && are_digits(digits),
        _ => false,
    }
}

fn are_digits(digits: &[u8]) -> bool
    ensures { result ≡ list_all is_digit digits.now }
{
    digits.iter().all(|b| is_digit(*b))
}
