ghost use Rattle.std.specs.Prelude.{◌≡◌};
ghost use Rattle.domethyme_c.specs.Sets.{digest_link, digest_links, digest_of, digest_word, middle_word};

use ch_graph::{Hierarchy, Link};

/// What a digest is multiplied by for each word: an odd number with bits of both kinds in all places.
pub const FACTOR: u64 = 0x9e37_79b9_7f4a_7c15;

/// The digest of a hierarchy, by which a set of numbers for another one is refused.
#[tactic(auto, using(crate::proofs::Listed::digest_more, crate::proofs::Listed::all_links))]
pub(crate) fn digest_of(hierarchy: &Hierarchy) -> u64
    ensures { result ≡ digest_of hierarchy.now }
{
    let links = hierarchy.links();
    let mut digest = 0;
    'links: for at in 0..links.len() {
        digest = digest_link(digest, links[at]);
    }
    digest
}

// The digest of one link more.
fn digest_link(digest: u64, link: Link) -> u64
    ensures { result ≡ digest_link digest link }
{
    let ends = u64::from(link.from) * (1 << 32) + u64::from(link.to);
    let length = link.cost.cost().length();
    let middle = middle_word(link);
    digest_word(digest_word(digest_word(digest, ends), length), middle)
}

// A link's middle as a word.
fn middle_word(link: Link) -> u64
    ensures { result ≡ middle_word link.middle }
{
    match link.middle.node() {
        None => 0,
        Some(middle) => u64::from(middle) + 1,
    }
}

// The digest of one word more.
fn digest_word(digest: u64, word: u64) -> u64
    ensures { result ≡ digest_word digest word }
{
    digest.wrapping_mul(FACTOR).wrapping_add(word)
}
