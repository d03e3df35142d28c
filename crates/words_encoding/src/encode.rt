// The word of a record.
ghost use Rattle.std.specs.Prelude.{◌≡◌, ◌*◌, ◌-◌, ◌≤◌, ◌<◌};
ghost use Rattle.neon.specs.Op.{op_at, arrangement_at};
ghost use Rattle.neon.specs.Form.{form};
ghost use Rattle.neon.specs.Refusal.{Legal};
ghost use Rattle.neon_form.specs.Code.{OfCode};
ghost use Rattle.block_record_check.specs.Record.{instruction};
ghost use Rattle.words_encoding.specs.Word.{encode};
ghost use Rattle.words_encoding.specs.Parts.{fixed_of, view_part, size_part, element_part, place_part, is_long};

use neon::form_code;
use neon_form::{is_full, lane_bits};

// The words of the operations, with every field 0 but U, opcode, and Q if it tells upper lanes.
const FIXED: [u64; 67] = [
    0x0f005400, // SHL
    0x0f007400, // SQSHLI
    0x2f007400, // UQSHLI
    0x2f006400, // SQSHLU
    0x0f000400, // SSHR
    0x2f000400, // USHR
    0x0f002400, // SRSHR
    0x2f002400, // URSHR
    0x0e204400, // SSHL
    0x2e204400, // USHL
    0x0e205400, // SRSHL
    0x2e205400, // URSHL
    0x0e204c00, // SQSHL
    0x2e204c00, // UQSHL
    0x0e205c00, // SQRSHL
    0x2e205c00, // UQRSHL
    0x2f005400, // SLI
    0x2f004400, // SRI
    0x0e200c00, // SQADD
    0x2e200c00, // UQADD
    0x0e202c00, // SQSUB
    0x2e202c00, // UQSUB
    0x0e200400, // SHADD
    0x2e200400, // UHADD
    0x0e201400, // SRHADD
    0x2e201400, // URHADD
    0x0e214800, // SQXTN
    0x2e214800, // UQXTN
    0x2e212800, // SQXTUN
    0x0f008400, // SHRN
    0x0f008c00, // RSHRN
    0x0f009400, // SQSHRN
    0x0f009c00, // SQRSHRN
    0x2f009400, // UQSHRN
    0x2f009c00, // UQRSHRN
    0x2f008400, // SQSHRUN
    0x2f008c00, // SQRSHRUN
    0x0e207800, // SQABS
    0x2e207800, // SQNEG
    0x0e20b400, // SQDMULH
    0x2e20b400, // SQRDMULH
    0x0e20d000, // SQDMULL
    0x0e209000, // SQDMLAL
    0x0e20b000, // SQDMLSL
    0x4e20d000, // SQDMULL2
    0x4e209000, // SQDMLAL2
    0x4e20b000, // SQDMLSL2
    0x0f00b000, // SQDMULLE
    0x0f003000, // SQDMLALE
    0x0f007000, // SQDMLSLE
    0x4f00b000, // SQDMULL2E
    0x4f003000, // SQDMLAL2E
    0x4f007000, // SQDMLSL2E
    0x0e203800, // SUQADD
    0x2e203800, // USQADD
    0x0e207400, // SABD
    0x2e207400, // UABD
    0x0e207c00, // SABA
    0x2e207c00, // UABA
    0x0e205800, // CNT
    0x2e204800, // CLZ
    0x0e204800, // CLS
    0x2e605800, // RBIT
    0x0e204000, // ADDHN
    0x2e204000, // RADDHN
    0x0e206000, // SUBHN
    0x2e206000, // RSUBHN
];

// The fixed bits of an operation's word.
fn fixed(operation: u64) -> u64
    requires { (1 ≤ operation) × (operation ≤ 67) }
    ensures { (result ≡ fixed_of (op_at operation)) × (result < 2147483648) }
{
    let k = (operation - 1) as usize;
    FIXED[k]
}

// Whether an operation's source lanes are half as wide as its result's.
pub fn is_long(operation: u64) -> bool
    requires { (1 ≤ operation) × (operation ≤ 67) }
    ensures { result ≡ is_long (form (op_at operation)).lanes }
{
    (42 <= operation) & (operation <= 53)
}

// Q, if it tells the view.
fn view_part(operation: u64, arrangement: u64) -> u64
    requires { (1 ≤ operation) × (operation ≤ 67) × (arrangement ≤ 6) }
    ensures { (result ≡ view_part (form (op_at operation)).lanes (arrangement_at arrangement)) × (result ≤ 1073741824) }
{
    if is_long(operation) {
        return 0;
    }
    if is_full(arrangement) { 1073741824 } else { 0 }
}

// The field size.
fn size_part(operation: u64, arrangement: u64) -> u64
    requires { (1 ≤ operation) × (operation ≤ 67) × (arrangement ≤ 6) }
    ensures { (result ≡ size_part (form (op_at operation)).lanes (arrangement_at arrangement)) × (result ≤ 12582912) }
{
    let size = arrangement / 2;
    if is_long(operation) & (0 < size) {
        return 4194304 * (size - 1);
    }
    4194304 * size
}

// H, L and M of an element, if M belongs to its number.
fn element_part(bits: u64, i: u64) -> u64
    requires { i ≤ 256 }
    ensures { (result ≡ element_part bits i) × (result ≤ 4194304) }
{
    if bits == 32 {
        return 2048 * (i / 4) + 2097152 * (i / 2 % 2) + 1048576 * (i % 2);
    }
    2048 * (i / 2) + 2097152 * (i % 2)
}

// The fields that go by the immediate: size and Rm; immh:immb; or size, H, L, M and Rm.
fn place(code: u64, bits: u64, size: u64, i: u64, m: u64) -> u64
    requires { (bits ≤ 64) × (size ≤ 12582912) × (i ≤ 256) × (m ≤ 31) }
    ensures { OfCode code (λ o v. result ≡ place_part (form o).immediate bits size i m) × (result ≤ 4294967296) }
{
    let row = code % 8;
    match row {
        1 => size + 65536 * m,
        2 => 65536 * (bits + i),
        3 => 65536 * (2 * bits).saturating_sub(i),
        _ => size + 65536 * m + element_part(bits, i),
    }
}

// The word of a legal record.
pub fn encode_word(operation: u64, arrangement: u64, i: u64, d: u64, n: u64, m: u64) -> u64
    requires { Legal (instruction operation arrangement i d n m) }
    ensures { result ≡ encode (instruction operation arrangement i d n m) }
{
    let code = form_code(operation, arrangement);
    let fields = place(
        code,
        lane_bits(arrangement),
        size_part(operation, arrangement),
        i,
        m,
    );
    fixed(operation) + view_part(operation, arrangement) + fields + 32 * n + d
}
