// NEON instructions: records, lanes and the table of legal forms. What an instruction computes is in specs/.
#![tactic(auto)]

ghost use Rattle.std.specs.Prelude.{◌≡◌};
ghost use Rattle.neon.specs.Form.{form_code_at};

// A record of a block. d, n and m are registers; m is 0 if there is no second source.
#[derive(Clone, Copy)]
pub struct Instruction {
    pub operation: u64,
    pub arrangement: u64,
    pub i: u64,
    pub d: u64,
    pub n: u64,
    pub m: u64,
}

// The number of a lane, lane 0 lowest.
#[derive(Clone, Copy)]
pub struct Lane(pub u64);

impl Lane {
    // The largest right shift of a register form: its amount is a signed byte, -128 at the least, whatever the bits of a lane.
    pub const REGISTER_SHIFT_MAX: u64 = 128;

    pub fn first() -> Self
        ensures { result.0 ≡ 0 }
    {
        Lane(0)
    }
}

// The form codes: a word for each operation, 1 to 67, and in it a byte for each arrangement, 8B lowest. A code is 0 if there
// is no such form; else the immediate (1: 0; 2: 0 to n - 1; 3: 1 to n; 4: an element), and 0x08 with a second source, 0x10 if
// d is read, 0x20 and 0x40 if the first and the second source are read at 128 bits.
const FORMS: [u64; 67] = [
    0x62_62_02_62_02_62_02, // 1 SHL
    0x62_62_02_62_02_62_02, // 2 SQSHLI
    0x62_62_02_62_02_62_02, // 3 UQSHLI
    0x62_62_02_62_02_62_02, // 4 SQSHLU
    0x63_63_03_63_03_63_03, // 5 SSHR
    0x63_63_03_63_03_63_03, // 6 USHR
    0x63_63_03_63_03_63_03, // 7 SRSHR
    0x63_63_03_63_03_63_03, // 8 URSHR
    0x69_69_09_69_09_69_09, // 9 SSHL
    0x69_69_09_69_09_69_09, // 10 USHL
    0x69_69_09_69_09_69_09, // 11 SRSHL
    0x69_69_09_69_09_69_09, // 12 URSHL
    0x69_69_09_69_09_69_09, // 13 SQSHL
    0x69_69_09_69_09_69_09, // 14 UQSHL
    0x69_69_09_69_09_69_09, // 15 SQRSHL
    0x69_69_09_69_09_69_09, // 16 UQRSHL
    0x72_72_12_72_12_72_12, // 17 SLI
    0x73_73_13_73_13_73_13, // 18 SRI
    0x69_69_09_69_09_69_09, // 19 SQADD
    0x69_69_09_69_09_69_09, // 20 UQADD
    0x69_69_09_69_09_69_09, // 21 SQSUB
    0x69_69_09_69_09_69_09, // 22 UQSUB
    0x00_69_09_69_09_69_09, // 23 SHADD
    0x00_69_09_69_09_69_09, // 24 UHADD
    0x00_69_09_69_09_69_09, // 25 SRHADD
    0x00_69_09_69_09_69_09, // 26 URHADD
    0x00_71_61_71_61_71_61, // 27 SQXTN
    0x00_71_61_71_61_71_61, // 28 UQXTN
    0x00_71_61_71_61_71_61, // 29 SQXTUN
    0x00_73_63_73_63_73_63, // 30 SHRN
    0x00_73_63_73_63_73_63, // 31 RSHRN
    0x00_73_63_73_63_73_63, // 32 SQSHRN
    0x00_73_63_73_63_73_63, // 33 SQRSHRN
    0x00_73_63_73_63_73_63, // 34 UQSHRN
    0x00_73_63_73_63_73_63, // 35 UQRSHRN
    0x00_73_63_73_63_73_63, // 36 SQSHRUN
    0x00_73_63_73_63_73_63, // 37 SQRSHRUN
    0x61_61_01_61_01_61_01, // 38 SQABS
    0x61_61_01_61_01_61_01, // 39 SQNEG
    0x00_69_09_69_09_00_00, // 40 SQDMULH
    0x00_69_09_69_09_00_00, // 41 SQRDMULH
    0x09_09_00_00_00_00_00, // 42 SQDMULL
    0x19_19_00_00_00_00_00, // 43 SQDMLAL
    0x19_19_00_00_00_00_00, // 44 SQDMLSL
    0x69_69_00_00_00_00_00, // 45 SQDMULL2
    0x79_79_00_00_00_00_00, // 46 SQDMLAL2
    0x79_79_00_00_00_00_00, // 47 SQDMLSL2
    0x4c_4c_00_00_00_00_00, // 48 SQDMULLE
    0x5c_5c_00_00_00_00_00, // 49 SQDMLALE
    0x5c_5c_00_00_00_00_00, // 50 SQDMLSLE
    0x6c_6c_00_00_00_00_00, // 51 SQDMULL2E
    0x7c_7c_00_00_00_00_00, // 52 SQDMLAL2E
    0x7c_7c_00_00_00_00_00, // 53 SQDMLSL2E
    0x71_71_11_71_11_71_11, // 54 SUQADD
    0x71_71_11_71_11_71_11, // 55 USQADD
    0x00_69_09_69_09_69_09, // 56 SABD
    0x00_69_09_69_09_69_09, // 57 UABD
    0x00_79_19_79_19_79_19, // 58 SABA
    0x00_79_19_79_19_79_19, // 59 UABA
    0x00_00_00_00_00_61_01, // 60 CNT
    0x00_61_01_61_01_61_01, // 61 CLZ
    0x00_61_01_61_01_61_01, // 62 CLS
    0x00_00_00_00_00_61_01, // 63 RBIT
    0x00_79_69_79_69_79_69, // 64 ADDHN
    0x00_79_69_79_69_79_69, // 65 RADDHN
    0x00_79_69_79_69_79_69, // 66 SUBHN
    0x00_79_69_79_69_79_69, // 67 RSUBHN
];

// The form code of an operation at an arrangement, 0 for numbers that name none.
pub fn form_code(operation: u64, arrangement: u64) -> u64
    ensures { result ≡ form_code_at operation arrangement }
{
    if operation < 1 {
        return 0;
    }
    if 67 < operation {
        return 0;
    }
    if 6 < arrangement {
        return 0;
    }
    let k = (operation - 1) as usize;
    (FORMS[k] >> (8 * arrangement)) % 256
}
