//! The names of operations.

ghost use Rattle.std.specs.Prelude.{◌≡◌, ◌≤◌, ◌<◌, [], get_or, length, map};
ghost use Rattle.instr_grammar.specs.Names.{alike, names, is_among};

/// How many names there are.
pub const COUNT: u8 = 92;

// The operations that are a name alone.
const NAMES: [&[u8]; 92] = [
    b"DUP",
    b"EMPTY_STACK",
    b"SWAP",
    b"POP",
    b"SUB",
    b"CONCAT",
    b"WAIT_FUTURE",
    b"TUPLE_PACK",
    b"TUPLE_PACK_WITH_VERSIONSTAMP",
    b"TUPLE_UNPACK",
    b"TUPLE_RANGE",
    b"TUPLE_SORT",
    b"GET_APPROXIMATE_SIZE",
    b"GET_ESTIMATED_RANGE_SIZE",
    b"UNIT_TESTS",
    b"USE_TRANSACTION",
    b"LOG_STACK",
    b"START_THREAD",
    b"WAIT_EMPTY",
    b"NEW_TRANSACTION",
    b"ON_ERROR",
    b"RESET",
    b"CANCEL",
    b"COMMIT",
    b"GET_READ_VERSION",
    b"GET_READ_VERSION_SNAPSHOT",
    b"SET_READ_VERSION",
    b"GET_COMMITTED_VERSION",
    b"GET_VERSIONSTAMP",
    b"READ_CONFLICT_RANGE",
    b"WRITE_CONFLICT_RANGE",
    b"READ_CONFLICT_KEY",
    b"WRITE_CONFLICT_KEY",
    b"DISABLE_WRITE_CONFLICT",
    b"GET",
    b"GET_SNAPSHOT",
    b"GET_DATABASE",
    b"GET_KEY",
    b"GET_KEY_SNAPSHOT",
    b"GET_KEY_DATABASE",
    b"GET_RANGE",
    b"GET_RANGE_SNAPSHOT",
    b"GET_RANGE_DATABASE",
    b"GET_RANGE_STARTS_WITH",
    b"GET_RANGE_STARTS_WITH_SNAPSHOT",
    b"GET_RANGE_STARTS_WITH_DATABASE",
    b"GET_RANGE_SELECTOR",
    b"GET_RANGE_SELECTOR_SNAPSHOT",
    b"GET_RANGE_SELECTOR_DATABASE",
    b"DIRECTORY_OPEN",
    b"DIRECTORY_OPEN_SNAPSHOT",
    b"DIRECTORY_OPEN_DATABASE",
    b"DIRECTORY_LIST",
    b"DIRECTORY_LIST_SNAPSHOT",
    b"DIRECTORY_LIST_DATABASE",
    b"DIRECTORY_EXISTS",
    b"DIRECTORY_EXISTS_SNAPSHOT",
    b"DIRECTORY_EXISTS_DATABASE",
    b"SET",
    b"SET_DATABASE",
    b"CLEAR",
    b"CLEAR_DATABASE",
    b"CLEAR_RANGE",
    b"CLEAR_RANGE_DATABASE",
    b"CLEAR_RANGE_STARTS_WITH",
    b"CLEAR_RANGE_STARTS_WITH_DATABASE",
    b"ATOMIC_OP",
    b"ATOMIC_OP_DATABASE",
    b"DIRECTORY_CREATE_OR_OPEN",
    b"DIRECTORY_CREATE_OR_OPEN_DATABASE",
    b"DIRECTORY_CREATE",
    b"DIRECTORY_CREATE_DATABASE",
    b"DIRECTORY_MOVE",
    b"DIRECTORY_MOVE_DATABASE",
    b"DIRECTORY_MOVE_TO",
    b"DIRECTORY_MOVE_TO_DATABASE",
    b"DIRECTORY_REMOVE",
    b"DIRECTORY_REMOVE_DATABASE",
    b"DIRECTORY_REMOVE_IF_EXISTS",
    b"DIRECTORY_REMOVE_IF_EXISTS_DATABASE",
    b"DIRECTORY_CREATE_SUBSPACE",
    b"DIRECTORY_CREATE_LAYER",
    b"DIRECTORY_CHANGE",
    b"DIRECTORY_SET_ERROR_INDEX",
    b"DIRECTORY_PACK_KEY",
    b"DIRECTORY_UNPACK_KEY",
    b"DIRECTORY_RANGE",
    b"DIRECTORY_CONTAINS",
    b"DIRECTORY_OPEN_SUBSPACE",
    b"DIRECTORY_LOG_SUBSPACE",
    b"DIRECTORY_LOG_DIRECTORY",
    b"DIRECTORY_STRIP_PREFIX",
];

/// Returns the name at this place.
#[tactic(auto, unfolding(crate::specs::Names::names))]
pub fn name_at(place: u8) -> &'static [u8]
    requires { place < 92 }
    ensures { result.now ≡ get_or names place [] }
{
    listed_at(&NAMES, place)
}

// The text at this place of a list.
#[tactic(auto, using(crate::proofs::NameTable::text_at))]
fn listed_at<'a>(texts: &[&'a [u8]], place: u8) -> &'a [u8]
    requires { place < length texts.now }
    ensures { result.now ≡ get_or (map (λ text. text.now) texts.now) place [] }
{
    texts[usize::from(place)]
}

/// Returns how many bytes two texts begin with alike.
pub fn alike(name: &[u8], bytes: &[u8]) -> usize
    ensures value { result ≡ alike name.now bytes.now }
    ensures within { result ≤ length bytes.now }
{
    let mut i = 0;
    while i < name.len() && i < bytes.len() && name[i] == bytes[i] {
        i += 1;
    }
    i
}
