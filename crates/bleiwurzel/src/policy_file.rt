// The reader of policy files: the number of a string, and any list or element of it, by number or at an offset. A part is its offset and its length
// in the file. C has no `Option` and no `Result`, so numbers, kinds and arrays of fields stand for them here.
ghost use Rattle.std.specs.Prelude.{◌≡◌, [], ◌∷◌};
ghost use Rattle.policy_grammar.specs.Decode.{accepted};
ghost use Rattle.policy_answers.specs.Answers.{file_answer, list_answer, element_answer};
ghost use Rattle.policy_answers.specs.Seen.{number_of, count_of, place_of};
ghost use Rattle.bleiwurzel.specs.Policy.{list_kind, list_fields, element_kind, element_fields, ListNumbersAt, ElementNumbersAt};

use policy_answers::{
    CUSTOM_TYPE, ElementAt, ElementBody, FileFault, LAUNCH_TYPE, ListAt, STM_TYPE,
};

// The number of a string: 0, 26 or 27. `lists` gets the number of its lists, 0 where it is refused, and `place` on 27 the offset of the first field at
// fault, else 0.
#[unsafe(no_mangle)]
pub extern "C" fn bleiwurzel_policy(file: &[u8], lists: &mut [u64; 1], place: &mut [u64; 1]) -> u32
    ensures number { result ≡ number_of (file_answer file.now) }
    ensures lists { lists.new ≡ count_of (file_answer file.now) ∷ [] }
    ensures place { place.new ≡ place_of (file_answer file.now) ∷ [] }
{
    *lists = [0];
    *place = [0];
    match policy_reader::read(file) {
        Ok(n) => {
            *lists = [n as u64];
            0
        }
        Err(FileFault::WrongSize) => 26,
        Err(FileFault::NotOfGrammar { place: at }) => {
            *place = [at as u64];
            27
        }
    }
}

// The kind of a list, with its numbers in `fields`: 0 where there is none, 1 for an unsigned one, 2 for a signed one. The fields are its offset, its size,
// its version, the offset and the size of its elements, and where it is signed the counter, the key size and the offsets of key and signature; else zeros.
fn list_numbers(l: Option<ListAt>, fields: &mut [u64; 9]) -> u32
    ensures kind { result ≡ list_kind l }
    ensures fields { fields.new ≡ list_fields l }
{
    let Some(l) = l else {
        *fields = [0; 9];
        return 0;
    };
    let Some(signing) = l.signing else {
        *fields = [
            l.start as u64,
            l.size as u64,
            l.version as u64,
            l.elements as u64,
            l.elements_size as u64,
            0,
            0,
            0,
            0,
        ];
        return 1;
    };
    *fields = [
        l.start as u64,
        l.size as u64,
        l.version as u64,
        l.elements as u64,
        l.elements_size as u64,
        signing.counter as u64,
        signing.key_size as u64,
        signing.key as u64,
        signing.signature as u64,
    ];
    2
}

// The list number i.
#[unsafe(no_mangle)]
pub extern "C" fn bleiwurzel_policy_list(file: &[u8], i: usize, fields: &mut [u64; 9]) -> u32
    ensures kind { result ≡ list_kind (list_answer (accepted file.now) i) }
    ensures fields { fields.new ≡ list_fields (list_answer (accepted file.now) i) }
{
    list_numbers(policy::list(file, i), fields)
}

// The list that stands at an offset.
#[unsafe(no_mangle)]
pub extern "C" fn bleiwurzel_policy_list_at(file: &[u8], at: usize, fields: &mut [u64; 9]) -> u32
    ensures { ListNumbersAt file.now at result fields.new }
{
    list_numbers(policy_reader::list_at(file, at), fields)
}

// The kind of an element, with its numbers in `fields`: 0 where there is none, 1 for a launch element (type 0x10), 2 for a custom one (type 3), 3 for
// another type, 4 for an STM element (type 0x14). The fields are its offset, its size, its type, its control, of a launch element SINITMinVersion and
// the reserved byte, and of a launch or an STM element HashAlg and the number of digests; else zeros.
fn element_numbers(e: Option<ElementAt>, fields: &mut [u64; 8]) -> u32
    ensures kind { result ≡ element_kind e }
    ensures fields { fields.new ≡ element_fields e }
{
    let Some(e) = e else {
        *fields = [0; 8];
        return 0;
    };
    match e.body {
        ElementBody::Launch {
            sinit_min_version,
            reserved,
            hash_alg,
            count,
        } => {
            *fields = [
                e.start as u64,
                e.size as u64,
                LAUNCH_TYPE as u64,
                e.control as u64,
                sinit_min_version as u64,
                reserved as u64,
                hash_alg as u64,
                count as u64,
            ];
            1
        }
        ElementBody::Custom => {
            *fields = [
                e.start as u64,
                e.size as u64,
                CUSTOM_TYPE as u64,
                e.control as u64,
                0,
                0,
                0,
                0,
            ];
            2
        }
        ElementBody::Unjudged { kind } => {
            *fields = [
                e.start as u64,
                e.size as u64,
                kind as u64,
                e.control as u64,
                0,
                0,
                0,
                0,
            ];
            3
        }
        ElementBody::Stm { hash_alg, count } => {
            *fields = [
                e.start as u64,
                e.size as u64,
                STM_TYPE as u64,
                e.control as u64,
                0,
                0,
                hash_alg as u64,
                count as u64,
            ];
            4
        }
    }
}

// The element number j of the list number i.
#[unsafe(no_mangle)]
pub extern "C" fn bleiwurzel_policy_element(
    file: &[u8],
    i: usize,
    j: usize,
    fields: &mut [u64; 8],
) -> u32
    ensures kind { result ≡ element_kind (element_answer (accepted file.now) i j) }
    ensures fields { fields.new ≡ element_fields (element_answer (accepted file.now) i j) }
{
    element_numbers(policy::element(file, i, j), fields)
}

// The element that stands at an offset.
#[unsafe(no_mangle)]
pub extern "C" fn bleiwurzel_policy_element_at(file: &[u8], at: usize, fields: &mut [u64; 8]) -> u32
    ensures { ElementNumbersAt file.now at result fields.new }
{
    element_numbers(policy_reader::element_at(file, at), fields)
}
