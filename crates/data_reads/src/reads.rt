// The data reads of each instruction.
ghost use Rattle.std.specs.Prelude.{◌≡◌};
ghost use Rattle.data_reads.specs.Reads.{memory_addresses, pointed_addresses, place_ranges, reads_of};
ghost use Rattle.data_reads.specs.ReadsLieIn.{ReadsLieIn, BoardReadsLieIn};

use abs_state::Pairs;
use intervals::WordRange;
use z80_decode::{Address, Index, Instr, Memory, Operand, Place};

/// The addresses from which an instruction reads data, for registers in these ranges: a range for each byte, at most
/// two. What it reads through SP does not count, nor do its own bytes. A block instruction reads one byte each turn. An
/// instruction of the I/O group reads none.
#[tactic(auto, using(crate::proofs::Lie::table_lies, crate::proofs::Lie::table_lies_on_boards), unfolding(crate::specs::Reads::reads_of))]
pub fn data_reads(instr: &Instr, pairs: &Pairs) -> [Option<WordRange>; 2]
    ensures exact { result ≡ reads_of instr.now pairs.now }
    ensures complete { ReadsLieIn result pairs.now instr.now }
    ensures on_boards { BoardReadsLieIn result pairs.now instr.now }
{
    match instr {
        Instr::LoadRegister(_, place)
        | Instr::Arithmetic(_, Operand::Place(place))
        | Instr::Increment(place)
        | Instr::Decrement(place)
        | Instr::Shift(_, place)
        | Instr::TestBit(_, place)
        | Instr::SetBit(_, place)
        | Instr::ResetBit(_, place) => at_place(*place, pairs),
        Instr::LoadA(address) => [Some(at_address(*address, pairs)), None],
        Instr::LoadPairDirect(_, at) => {
            let low = WordRange::single(*at);
            [Some(low), Some(low.increment())]
        }
        Instr::BlockLoad(_)
        | Instr::BlockCompare(_)
        | Instr::RotateDigitsLeft
        | Instr::RotateDigitsRight => [Some(pairs.hl.word), None],
        _ => [None, None],
    }
}

/// The addresses of an operand that may be in memory.
fn at_place(place: Place, pairs: &Pairs) -> [Option<WordRange>; 2]
    ensures { result ≡ place_ranges place pairs.now }
{
    match place {
        Place::Register(_) => [None, None],
        Place::Memory(memory) => [Some(at_memory(memory, pairs)), None],
    }
}

/// The addresses of an operand in memory.
fn at_memory(memory: Memory, pairs: &Pairs) -> WordRange
    ensures { result ≡ memory_addresses memory pairs.now }
{
    match memory {
        Memory::AtHl => pairs.hl.word,
        Memory::At(Index::Ix, by) => pairs.ix.word.displacement(by),
        Memory::At(Index::Iy, by) => pairs.iy.word.displacement(by),
    }
}

/// The addresses of LD A,(BC), LD A,(DE) and LD A,(nn).
fn at_address(address: Address, pairs: &Pairs) -> WordRange
    ensures { result ≡ pointed_addresses address pairs.now }
{
    match address {
        Address::Bc => pairs.bc.word,
        Address::De => pairs.de.word,
        Address::Direct(at) => WordRange::single(at),
    }
}
