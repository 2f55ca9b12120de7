ghost use Rattle.std.specs.Prelude.{◌≡◌, ◌↔◌, ◌<◌, ◌≤◌, ◌^◌, All, Err, IfErr, IfOk, IfSome, IsTrue, OnErr, OnOk, length, Some, ◌*◌};
ghost use Rattle.ch_graph.specs.Hierarchy.{IsWellMade, version_number};
ghost use Rattle.hierfile.specs.Bytes.{IsFaultOf};
ghost use Rattle.hierfile.specs.Fault.{first_fault};
ghost use Rattle.hierfile.specs.Spelling.{bytes_of};
ghost use Rattle.domethyme_c.specs.Answers.{AreNodes, IsBetween, IsLength, IsRoute, IsWrong};
ghost use Rattle.domethyme_c.specs.Engines.{IsNoSelection};
ghost use Rattle.domethyme_c.specs.Sets.{digest_of};
ghost use Rattle.domethyme_c.specs.Summing.{IsSumming};
ghost use Rattle.ch_sums.specs.Numbers.{AreNumbersOf, IsNumbersFault};
ghost use Rattle.ch_query.specs.Seeds.{AreSeeds};
ghost use Rattle.ch_route.specs.Between.{HasTooLongBetween, IsRowLengthFrom, IsRowLengthWithin};
ghost use Rattle.ch_route.specs.Routes.{HasTooLong, IsRowLength};
ghost use Rattle.ch_table.specs.Lengths.{AreRows, IsRow};
ghost use Rattle.ch_table.specs.Selection.{IsSelection};
ghost use Rattle.std.specs.Arc.{arc_value};
ghost use Rattle.std.specs.List.{range_with_len};
ghost use Rattle.ch_unpack.specs.declared.error.UnpackError.TheVariants.{TooLong};

use crate::code::{NODE_RANGE, OUT_OF_MEMORY};
use crate::digest::digest_of;
use crate::sharing::Sharing;
use crate::summing::Summing;
use ch_graph::{Hierarchy, Link};
use ch_route::{Route, RouteBetween, RouterOf, Seed, Selection, UnpackError};
use ch_sums::{Numbers, NumbersError};
use hierfile::HierError;
use std::alloc::{AllocError, Global};
use std::marker::Model;
use std::sync::Arc;

/// What an open handle has: a router of a hierarchy, which other handles may share, the version of its file, the selection
/// of the last table, for another table to the same targets, a share in the last one that any of these handles made, and
/// what makes sums, once a call has made it.
#[derive(Drop)]
pub(crate) struct Engine {
    hierarchy: Arc<Hierarchy>,
    router: RouterOf<Arc<Hierarchy>>,
    version: u8,
    kept: Option<Arc<Selection>>,
    sharing: Sharing,
    summing: Option<Summing>,
}

impl Model for Engine {
    ghost use Rattle.ch_graph.specs.Hierarchy as hierarchies;
    ghost use Rattle.std.specs.Prelude.{option_map};
    ghost use Rattle.std.specs.Arc.{arc_value};
    ghost use Rattle.domethyme_c.specs.Engines.{IsEngine};

    ghost Value = { hierarchies.Hierarchy };

    ghost view = { λ e. e.router };

    ghost invariant = { λ e. IsEngine e.router (arc_value e.hierarchy) e.version (option_map arc_value e.kept) e.sharing e.summing };
}

/// The hierarchy of the bytes of a file.
pub(crate) fn read_hierarchy(alloc: Global, bytes: &[u8]) -> Result<Hierarchy, HierError>
    ensures made { IfOk result (λ hierarchy. IsWellMade hierarchy) }
    ensures ok { IfOk result (λ hierarchy. bytes.now ≡ bytes_of hierarchy) }
    ensures err { IfErr result (IsFaultOf first_fault (Some bytes.now)) }
{
    let mut rest = bytes;
    let hierarchy = hierfile::read(alloc, &mut rest)?;
    let _well_made = hierarchy.nodes();
    Ok(hierarchy)
}

// Whether these are the numbers below a count, in order.
fn are_counted(numbers: &[u32], count: u32) -> bool
    ensures { IsTrue result → numbers.now ≡ range_with_len 0 count }
{
    if numbers.len() != count as usize {
        return false;
    }
    'numbers: for at in 0..numbers.len() {
        if numbers[at] as usize != at {
            return false;
        }
    }
    true
}

impl Engine {
    /// Reads the bytes of a hierarchy file.
    pub(crate) fn read(alloc: Global, bytes: &[u8]) -> Result<Engine, HierError>
        ensures made { IfOk result (λ engine. IsWellMade engine) }
        ensures ok { IfOk result (λ engine. bytes.now ≡ bytes_of engine) }
        ensures err { IfErr result (IsFaultOf first_fault (Some bytes.now)) }
    {
        let hierarchy = read_hierarchy(alloc, bytes)?;
        let engine = Engine::of(alloc, hierarchy)?;
        Ok(engine)
    }

    /// The engine of a hierarchy.
    pub(crate) fn of(alloc: Global, hierarchy: Hierarchy) -> Result<Engine, AllocError>
        ensures made { IfOk result (λ engine. IsWellMade engine) }
        ensures same { IfOk result (λ engine. engine ≡ hierarchy) }
    {
        let version = hierarchy.version();
        let hierarchy = Arc::new(alloc, hierarchy)?;
        let router = RouterOf::new(alloc, Arc::try_clone(&hierarchy)?)?;
        let _well_made = router.nodes();
        let sharing = Sharing::new(alloc, &router)?;
        Ok(Engine {
            hierarchy,
            router,
            version,
            kept: None,
            sharing,
            summing: None,
        })
    }

    /// The number of nodes.
    pub(crate) fn nodes(&self) -> u32
        ensures { result ≡ length self.now.ranks }
    {
        self.router.nodes()
    }

    /// The version of the file.
    pub(crate) fn version(&self) -> u32
        ensures { result ≡ version_number self.now.version }
    {
        u32::from(self.version)
    }

    /// Whether both are nodes.
    pub(crate) fn are_nodes(&self, from: u32, to: u32) -> bool
        ensures { IsTrue result ↔ AreNodes self.now from to }
    {
        let nodes = self.nodes();
        (from < nodes) & (to < nodes)
    }

    /// Whether all are nodes.
    pub(crate) fn has_all(&self, nodes: &[u32]) -> bool
        ensures { IsTrue result ↔ All (λ v. v < length self.now.ranks) nodes.now }
    {
        let count = self.nodes();
        nodes.iter().all(|node| *node < count)
    }

    /// The least length of a path, or `None` where there is no path.
    pub(crate) fn length(&mut self, from: u32, to: u32) -> Result<Option<u64>, AllocError>
        requires { AreNodes self.old from to }
        ensures found { IfOk result (IsLength self.old from to) }
        ensures kept { self.new ≡ self.old }
    {
        self.router.length((from, to))
    }

    /// A shortest path, or `None` where there is no path.
    pub(crate) fn route(&mut self, from: u32, to: u32) -> Result<Option<Route>, UnpackError>
        requires { AreNodes self.old from to }
        ensures found { IfOk result (IsRoute self.old from to) }
        ensures too_long { result ≡ Err TooLong → HasTooLong self.old from to × IsWrong self.old }
        ensures kept { self.new ≡ self.old }
    {
        self.router.route((from, to))
    }

    /// A shortest path between several starts and several ends, or `None` where there is none.
    pub(crate) fn between(
        &mut self,
        starts: &[Seed],
        ends: &[Seed],
    ) -> Result<Option<RouteBetween>, UnpackError>
        requires starts { AreSeeds self.old starts.now }
        requires ends { AreSeeds self.old ends.now }
        ensures found { IfOk result (IsBetween self.old starts.now ends.now) }
        ensures too_long { result ≡ Err TooLong → HasTooLongBetween self.old starts.now ends.now × IsWrong self.old }
        ensures kept { self.new ≡ self.old }
    {
        self.router.between(starts, ends)
    }

    /// Returns a selection of these targets, which is kept and shared then, or the code that says why there is none. The
    /// one that is kept or shared is taken if it is of them, and their nodes aren't looked at again.
    pub(crate) fn selection(
        &mut self,
        alloc: Global,
        targets: &[u32],
    ) -> Result<Arc<Selection>, u32>
        ensures selection { IfOk result (λ s. IsSelection self.old (arc_value s)) }
        ensures targets { IfOk result (λ s. (arc_value s).targets ≡ targets.now) }
        ensures refused { IfErr result (IsNoSelection self.old targets.now) }
        ensures kept { self.new ≡ self.old }
    {
        if let Some(found) = self.find(targets) {
            return Ok(found);
        }
        if !self.has_all(targets) {
            return Err(NODE_RANGE);
        }
        match self.select(alloc, targets) {
            Ok(selection) => Ok(selection),
            Err(_) => Err(OUT_OF_MEMORY),
        }
    }

    /// The selection that is kept, if it is of all nodes, in order.
    pub(crate) fn kept_of_all(&self) -> Option<Arc<Selection>>
        ensures selection { IfSome result (λ s. IsSelection self.now (arc_value s)) }
        ensures targets { IfSome result (λ s. (arc_value s).targets ≡ range_with_len 0 (length self.now.ranks)) }
    {
        if let Some(kept) = &self.kept {
            if are_counted(kept.targets(), self.nodes()) {
                return Arc::try_clone(kept).ok();
            }
        }
        None
    }

    // The selection that is kept or shared, if it is of these targets. It is kept then.
    fn find(&mut self, targets: &[u32]) -> Option<Arc<Selection>>
        ensures selection { IfSome result (λ s. IsSelection self.old (arc_value s)) }
        ensures targets { IfSome result (λ s. (arc_value s).targets ≡ targets.now) }
        ensures kept { self.new ≡ self.old }
    {
        if let Some(kept) = &self.kept {
            if kept.targets() == targets {
                return Arc::try_clone(kept).ok();
            }
        }
        let shared = self.sharing.find(&self.router, targets)?;
        self.keep(&shared);
        Some(shared)
    }

    // Makes a selection, keeps it and shares it, in place of any other.
    fn select(&mut self, alloc: Global, targets: &[u32]) -> Result<Arc<Selection>, AllocError>
        requires targets { All (λ t. t < length self.old.ranks) targets.now }
        ensures selection { IfOk result (λ s. IsSelection self.old (arc_value s)) }
        ensures targets { IfOk result (λ s. (arc_value s).targets ≡ targets.now) }
        ensures kept { self.new ≡ self.old }
    {
        self.forget_selection();
        let selection = self.router.select(targets)?;
        let selection = Arc::new(alloc, selection)?;
        self.keep(&selection);
        let shared = Arc::try_clone(&selection).ok();
        self.sharing.put(&self.router, shared);
        Ok(selection)
    }

    // Keeps a selection, if its counter isn't full.
    fn keep(&mut self, selection: &Arc<Selection>)
        requires { IsSelection self.old (arc_value selection.now) }
        ensures { self.new ≡ self.old }
    {
        self.kept = Arc::try_clone(selection).ok();
    }

    /// Keeps and shares no selection.
    pub(crate) fn forget_selection(&mut self)
        ensures { self.new ≡ self.old }
    {
        self.kept = None;
        self.sharing.put(&self.router, None);
    }

    /// Writes the least length of a path from each source to each target of a selection, row by row.
    pub(crate) fn lengths(
        &mut self,
        sources: &[u32],
        selection: &Selection,
        rows: &mut [u64],
    ) -> Result<(), AllocError>
        requires sources { All (λ s. s < length self.old.ranks) sources.now }
        requires selection { IsSelection self.old selection.now }
        requires room { length sources.now * length selection.now.targets ≤ length rows.old }
        ensures rows { OnOk result (AreRows (IsRowLength self.old) sources.now selection.now.targets 0 (length sources.now) rows.old rows.new) }
        ensures kept { self.new ≡ self.old }
    {
        self.router.lengths(sources, selection, rows, 0)
    }

    /// Writes the least length of a path from one of the starts to each target of a selection, where it is at most `most`.
    pub(crate) fn lengths_from(
        &mut self,
        starts: &[Seed],
        most: u64,
        selection: &Selection,
        row: &mut [u64],
    ) -> Result<(), AllocError>
        requires starts { AreSeeds self.old starts.now }
        requires most { most ≤ 2 ^ 62 }
        requires selection { IsSelection self.old selection.now }
        requires room { length selection.now.targets ≤ length row.old }
        ensures within { OnOk result (IsRow (IsRowLengthWithin self.old starts.now most) selection.now.targets 0 row.old row.new) }
        ensures row { OnOk result (most ≡ 2 ^ 62 → IsRow (IsRowLengthFrom self.old starts.now) selection.now.targets 0 row.old row.new) }
        ensures refused { OnErr result (row.new ≡ row.old) }
        ensures kept { self.new ≡ self.old }
    {
        self.router.lengths_from(starts, most, selection, row, 0)
    }

    /// Takes out what makes sums, which is made if none is kept.
    pub(crate) fn take_summing(&mut self, alloc: Global) -> Result<Summing, AllocError>
        ensures summing { IfOk result (IsSumming self.old) }
        ensures kept { self.new ≡ self.old }
    {
        if let Some(summing) = self.summing.take() {
            return Ok(summing);
        }
        Summing::new(alloc, &self.hierarchy)
    }

    /// Keeps what makes sums, for the next call.
    pub(crate) fn keep_summing(&mut self, summing: Summing)
        requires { IsSumming self.old summing }
        ensures { self.new ≡ self.old }
    {
        self.summing = Some(summing);
    }

    /// The links.
    pub(crate) fn links(&self) -> &[Link]
        ensures { result.now ≡ self.now.links }
    {
        self.hierarchy.links()
    }

    /// The digest of the hierarchy.
    pub(crate) fn digest(&self) -> u64
        ensures { result ≡ digest_of self.now }
    {
        digest_of(&self.hierarchy)
    }

    /// The numbers of all links, of those that are given for the links without a middle.
    pub(crate) fn numbers(&self, alloc: Global, given: &[u32]) -> Result<Numbers, NumbersError>
        ensures numbers { IfOk result (λ numbers. AreNumbersOf self.now given.now numbers) }
        ensures refused { IfErr result (IsNumbersFault self.now given.now) }
    {
        Numbers::new(alloc, &self.hierarchy, given)
    }

    /// Another engine of the same hierarchy, which shares the kept selection and those that either makes later.
    pub(crate) fn beside(&mut self) -> Result<Engine, AllocError>
        ensures kept { self.new ≡ self.old }
        ensures same { IfOk result (λ engine. engine ≡ self.old) }
    {
        let kept = match &self.kept {
            Some(kept) => Some(Arc::try_clone(kept)?),
            None => None,
        };
        let router = self.router.beside()?;
        let sharing = self.sharing.beside(&self.router)?;
        let hierarchy = Arc::try_clone(&self.hierarchy)?;
        Ok(Engine {
            hierarchy,
            router,
            version: self.version,
            kept,
            sharing,
            summing: None,
        })
    }
}
