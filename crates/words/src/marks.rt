// Seat marks: up to 32 seats in one number, seat i's mark at binary digit i.
ghost use Rattle.std.specs.Prelude.{◌-◌, ◌^◌, ◌<◌, ◌≡◌};
ghost use Rattle.std.specs.Int.Bits.{bit_or};
ghost use Rattle.std.specs.Int.Count.{count_trailing_zeros};
ghost use Rattle.words.specs.Marks.{marked, mark};

// Every seat's mark.
pub const EVERY: u32 = 0xffff_ffff;

// Whether the seat has its mark.
pub fn is_marked(marks: u32, seat: usize) -> bool
    requires { seat < 32 }
    ensures { result ≡ marked marks seat }
{
    (marks >> seat) % 2 == 1
}

// The marks with the seat's set.
#[tactic(auto, using(crate::proofs::MarkLaws::mark_shifted))]
pub fn with_mark(marks: u32, seat: usize) -> u32
    requires { seat < 32 }
    ensures { result ≡ mark marks seat }
{
    marks | (1u32 << seat)
}

// The seats marked in one or the other: each once.
pub fn either(a: u32, b: u32) -> u32
    ensures { result ≡ bit_or a b }
{
    a | b
}

// The lowest seat marked; 32 where none is.
pub fn lowest(marks: u32) -> usize
    ensures { result ≡ count_trailing_zeros 32 marks }
{
    u32::trailing_zeros(marks) as usize
}

// The marks without the lowest seat's.
#[tactic(auto, using(crate::proofs::MarkLaws::lowest_away))]
pub fn without_lowest(marks: u32) -> u32
    requires { 0 < marks }
    ensures { result ≡ marks - 2 ^ count_trailing_zeros 32 marks }
{
    marks & (marks - 1)
}
