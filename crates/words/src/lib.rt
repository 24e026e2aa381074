// Which reserved word or delimiter a stretch of bytes spells. Request 03 (look only at words of the same length and first letter) changes
// `search` and its proof, and nothing outside this crate.
#![tactic(auto)]

ghost use Rattle.std.specs.Prelude.{◌≡◌, ◌&&◌, [], ◌∷◌, ◌≤◌, eqb, length};
ghost use Rattle.words.specs.Words.{begins, place_in, reserved_words, delimiters};
ghost use Rattle.words.specs.code.Packed.{delimiter_count, searched, byte_from};

// How many delimiters have two bytes: they stand first in the list.
const TWO_BYTE_DELIMITERS: usize = 7;

fn begins_with(w: &[u8], t: &[u8]) -> bool
    ensures { result ≡ begins w.now t.now }
{
    for (i, b) in w.iter().enumerate() {
        if t.len() <= i {
            return false;
        }
        if classes::lower_case(*b) != t[i] {
            return false;
        }
    }
    true
}

// Whether the word of n bytes in front is the one looked for.
fn entry_is(w: &[u8], t: &[u8], n: usize) -> bool
    ensures { result ≡ (eqb n (length w.now) && begins w.now t.now) }
{
    if n != w.len() {
        return false;
    }
    begins_with(w, t)
}

// The place of a word in a list that holds each word after its length.
fn search(w: &[u8], list: &[u8]) -> Option<usize>
    ensures { result ≡ searched 0 0 w.now list.now }
{
    // a while: each turn goes on after the word that it passed
    let mut i = 0;
    let mut k = 0;
    while i < list.len() {
        let n = list[i] as usize;
        let from = i + 1;
        if entry_is(w, &list[from..], n) {
            return Some(k);
        }
        i = from + n;
        k += 1;
    }
    None
}

pub fn reserved_word(w: &[u8]) -> Option<usize>
    ensures { result ≡ place_in w.now reserved_words }
{
    search(
        w,
        b"\x03abs\x06access\x05after\x05alias\x03all\x03and\x0carchitecture\x05array\x06assert\x06assume\x10assume_guarantee\x09attribute\x05begin\x05block\x04body\x06buffer\x03bus\x04case\x09component\x0dconfiguration\x08constant\x07context\x05cover\x07default\x0adisconnect\x06downto\x04else\x05elsif\x03end\x06entity\x04exit\x08fairness\x04file\x03for\x05force\x08function\x08generate\x07generic\x05group\x07guarded\x02if\x06impure\x02in\x08inertial\x05inout\x02is\x05label\x07library\x07linkage\x07literal\x04loop\x03map\x03mod\x04nand\x03new\x04next\x03nor\x03not\x04null\x02of\x02on\x04open\x02or\x06others\x03out\x07package\x09parameter\x04port\x09postponed\x09procedure\x07process\x08property\x09protected\x04pure\x05range\x06record\x08register\x06reject\x07release\x03rem\x06report\x08restrict\x12restrict_guarantee\x06return\x03rol\x03ror\x06select\x08sequence\x08severity\x06shared\x06signal\x03sla\x03sll\x03sra\x03srl\x06strong\x07subtype\x04then\x02to\x09transport\x04type\x0aunaffected\x05units\x05until\x03use\x08variable\x05vmode\x05vprop\x05vunit\x04wait\x04when\x05while\x04with\x04xnor\x03xor",
    )
}

// The place of a byte in a list of bytes, the first of which has the number k.
fn byte_place(b: u8, list: &[u8], k: usize) -> Option<usize>
    requires { k ≤ delimiter_count }
    ensures { result ≡ byte_from k b list.now }
{
    // no `position(..).map(..)`: its proof was tried by `search`, with the set for chains too, and did not close
    for (i, x) in list.iter().enumerate() {
        if *x == b {
            return Some(k + i);
        }
    }
    None
}

// A delimiter of one byte: they stand after the seven of two bytes.
pub fn delimiter_one(b: u8) -> Option<usize>
    ensures { result ≡ place_in (b ∷ []) delimiters }
{
    byte_place(b, b"&'()*+,-./:;<=>|[]", TWO_BYTE_DELIMITERS)
}

// A delimiter of two bytes: each ends with `=`, `>` or `*`.
pub fn delimiter_two(b: u8, d: u8) -> Option<usize>
    ensures { result ≡ place_in (b ∷ d ∷ []) delimiters }
{
    if (d == b'=') | (d == b'>') | (d == b'*') {
        return search(&[b, d], b"\x02=>\x02**\x02:=\x02/=\x02>=\x02<=\x02<>");
    }
    None
}
