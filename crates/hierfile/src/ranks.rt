ghost use Rattle.std.specs.Prelude.{◌≡◌, ◌≢◌, ◌++◌, ◌∷◌, [], ◌<◌, ℕ, length, None, Some, IfOk, IfErr, OnOk};
ghost use Rattle.std.specs.List.{flat_map};
ghost use Rattle.hierfile.specs.Spelling.{word};
ghost use Rattle.hierfile.specs.Fault.{rank_test, rank_fault, ranks_fault};
ghost use Rattle.hierfile.specs.Bytes.{OfBytes, NoneBelow};
ghost use Rattle.hierfile.specs.Reading.{ReadsValue};
ghost use Rattle.hierfile.specs.Taken.{AreTaken};

use crate::byte_reader::ByteReader;
use crate::error::HierError;
use crate::taken::Taken;
use counted_io::StepRead;
use std::alloc::Global;
use std::collections::BTreeSet;

/// Reads the ranks of this many nodes.
pub fn read_ranks<R: StepRead>(
    alloc: Global,
    input: &mut ByteReader,
    reader: &mut R,
    nodes: u32,
) -> Result<Vec<u32>, HierError>
    ensures count { IfOk result (λ ranks. length ranks.items ≡ nodes) }
    ensures faultless { IfOk result (λ ranks. NoneBelow nodes (rank_fault nodes ranks.items)) }
    ensures reads { ReadsValue R.step R.remaining input.old input.new reader.old reader.new (λ ranks. flat_map word ranks.items) (ranks_fault nodes) result }
{
    let mut ranks = Vec::new(alloc);
    let mut taken = Taken::Few(BTreeSet::new(alloc));
    'nodes: for _ in 0..nodes {
        let rank = input.word(reader)?;
        taken.mark_if_many(alloc, nodes, ranks.as_slice())?;
        take_rank(&mut ranks, &mut taken, nodes, rank)?;
    }
    Ok(ranks)
}

// Puts a rank behind those before it, which are taken.
#[tactic(auto, unfolding(crate::specs::Fault::rank_test))]
fn take_rank(
    ranks: &mut Vec<u32>,
    taken: &mut Taken,
    nodes: u32,
    rank: u32,
) -> Result<(), HierError>
    requires { AreTaken nodes taken.old ranks.old.items }
    ensures ok { OnOk result (ranks.new.items ≡ ranks.old.items ++ rank ∷ []) }
    ensures taken { OnOk result (AreTaken nodes taken.new ranks.new.items) }
    ensures faultless { OnOk result (rank_test nodes ranks.old.items rank ≡ None) }
    ensures err { IfErr result (λ e. OfBytes e (rank_test nodes ranks.old.items rank ≡ Some e)) }
    ensures no_read { IfErr result (λ e. e ≢ HierError.Read) }
{
    if rank >= nodes {
        return Err(HierError::RankRange);
    }
    if !taken.add(rank)? {
        return Err(HierError::RankTwice);
    }
    ranks.push(rank)?;
    Ok(())
}
