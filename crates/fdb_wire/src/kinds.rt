//! Which elements are of a kind.

ghost use Rattle.std.specs.Prelude.{◌≡◌};
ghost use Rattle.fdb_wire.specs.Reading.{flag_in, code_in, limit_in, life_in, offset_in, version_in, mode_by, mode_in};

use fdb_tuple::Elem;
use model_database::Mode;

pub(crate) fn flag_in(element: &Elem) -> Option<bool>
    ensures { result ≡ flag_in element.now }
{
    match element {
        Elem::Bool(flag) => Some(*flag),
        _ => None,
    }
}

pub(crate) fn code_in(element: &Elem) -> Option<u16>
    ensures { result ≡ code_in element.now }
{
    match element {
        Elem::Int(number) => u16::try_from(*number).ok(),
        _ => None,
    }
}

pub(crate) fn limit_in(element: &Elem) -> Option<u32>
    ensures { result ≡ limit_in element.now }
{
    match element {
        Elem::Int(number) => u32::try_from(*number).ok(),
        _ => None,
    }
}

pub(crate) fn life_in(element: &Elem) -> Option<u64>
    ensures { result ≡ life_in element.now }
{
    match element {
        Elem::Int(number) => u64::try_from(*number).ok(),
        _ => None,
    }
}

pub(crate) fn offset_in(element: &Elem) -> Option<i32>
    ensures { result ≡ offset_in element.now }
{
    match element {
        Elem::Int(number) => i32::try_from(*number).ok(),
        _ => None,
    }
}

pub(crate) fn version_in(element: &Elem) -> Option<i64>
    ensures { result ≡ version_in element.now }
{
    match element {
        Elem::Int(number) => i64::try_from(*number).ok(),
        _ => None,
    }
}

fn mode_by(number: i128) -> Option<Mode>
    ensures { result ≡ mode_by number }
{
    match (number.is_negative(), number.unsigned_abs()) {
        (true, 2) => Some(Mode::WantAll),
        (true, 1) => Some(Mode::Iterator),
        (false, 0) => Some(Mode::Exact),
        (false, 1) => Some(Mode::Small),
        (false, 2) => Some(Mode::Medium),
        (false, 3) => Some(Mode::Large),
        (false, 4) => Some(Mode::Serial),
        _ => None,
    }
}

pub(crate) fn mode_in(element: &Elem) -> Option<Mode>
    ensures { result ≡ mode_in element.now }
{
    match element {
        Elem::Int(number) => mode_by(*number),
        _ => None,
    }
}
