//! A walk over selection sets by their nodes.
ghost use Rattle.std.specs.Prelude.{◌≡◌, OnOk, IfOk, IsTrue};
ghost use Rattle.rule_field_sets.specs.Nodes.{AreSets, HasAllStarts};
ghost use Rattle.rule_field_groups.specs.Members.{meant_sets, AreMembersOf};
ghost use Rattle.rule_field_groups.specs.Below.{IsMerged, IsPartOfMerged};
ghost use Rattle.rule_field_sets.specs.in_reach.Fields.{meant_fragments};
ghost use Rattle.rule_field_groups.specs.NodeWalk.{state_of, with_paid, PassesMember, PassesMembers, PassesSpreads, PassesNode, WalksOn, WalksOver};

use crate::nodes::{fragment_of, node_of};
use indexmap::IndexSet;
use list_interner::NumberSet;
use rule_field_sets::{FieldSets, Member, SetNode};
use std::alloc::{AllocError, Global};

/// What a walk may cost: a step for each field and each spread that it visits. Fields that were not met before pay for more.
#[derive(Clone, Copy)]
pub struct Toll<'a> {
    /// The numbers of the fields that were met.
    pub met: &'a NumberSet,
    /// How many steps are paid in advance.
    pub paid: usize,
    /// How many steps each field pays that was not met before.
    pub each: usize,
}

/// What sets select, through fragments, each number once: all of it, or only the first part if the walk was not paid to its end.
pub struct MergedList<'doc> {
    pub members: Vec<Member<'doc>>,
    pub is_whole: bool,
    /// How many steps the walk took.
    pub steps: usize,
}

// Not derived: a derived drop is proved again in each crate that drops one.
impl Drop for MergedList<'_> {
    fn drop(self) {
        let MergedList {
            members: _,
            is_whole: _,
            steps: _,
        } = self;
    }
}

/// A walk over the sets of nodes, one after the other, for the fields that they select. A fragment is walked once for all of
/// them: what it selects is there when a later set spreads it.
#[derive(Drop)]
struct NodeWalk<'doc> {
    members: Vec<Member<'doc>>,
    /// The numbers of these fields.
    numbers: NumberSet,
    /// The fragments that are spread, by their indices in the document, in the order of their first spreads.
    spread: IndexSet<usize>,
    /// How many of these fields were not met before.
    fresh: usize,
    steps: usize,
    is_whole: bool,
}

/// Whether some of these fields may be new. Fields are met in their order, so if the last one was met, all were.
fn may_pay(toll: Toll<'_>, members: &[Member<'_>]) -> bool {
    match members.last() {
        None => true,
        Some(member) => !toll.met.contains(member.number),
    }
}

impl<'doc> NodeWalk<'doc> {
    /// Whether the steps so far are paid, and, if the next node has no fields that pay, so many more too. Then these are
    /// taken; otherwise the walk is not whole.
    fn steps_on(&mut self, toll: Toll<'_>, more: usize, pays: bool) -> bool
        ensures { state_of self.new ≡ with_paid result (state_of self.old) }
    {
        let paid = toll
            .paid
            .saturating_add(self.fresh.saturating_mul(toll.each));
        let steps = self.steps.saturating_add(more);
        let due = if pays { self.steps } else { steps };
        if due > paid {
            self.is_whole = false;
            return false;
        }
        self.steps = steps;
        true
    }

    /// Counts a field, if it was not met before.
    fn count_fresh(&mut self, toll: Toll<'_>, number: usize)
        ensures { state_of self.new ≡ state_of self.old }
    {
        if !toll.met.contains(number) {
            self.fresh = self.fresh.saturating_add(1);
        }
    }

    /// Adds a field, unless its number is there.
    fn pass_member(&mut self, toll: Toll<'_>, member: Member<'doc>) -> Result<(), AllocError>
        ensures { OnOk result (PassesMember member.entry (state_of self.old) (state_of self.new)) }
    {
        let is_new = self.numbers.insert(member.number)?;
        if !is_new {
            return Ok(());
        }
        self.count_fresh(toll, member.number);
        self.members.push(member)?;
        Ok(())
    }

    /// Adds the fields.
    fn pass_members(&mut self, toll: Toll<'_>, members: &[Member<'doc>]) -> Result<(), AllocError>
        ensures { OnOk result (PassesMembers members.now (state_of self.old) (state_of self.new)) }
    {
        for member in members {
            self.pass_member(toll, *member)?;
        }
        Ok(())
    }

    /// Notes the fragments.
    fn note_spreads(&mut self, spreads: &[usize]) -> Result<(), AllocError>
        ensures { OnOk result (PassesSpreads spreads.now (state_of self.old) (state_of self.new)) }
    {
        for place in spreads {
            self.spread.insert(*place)?;
        }
        Ok(())
    }

    /// Visits the fields and the spreads of a node, if that is paid.
    fn pass_node(&mut self, toll: Toll<'_>, node: &SetNode<'doc>) -> Result<(), AllocError>
        ensures { OnOk result (PassesNode node.now (state_of self.old) (state_of self.new)) }
    {
        let more = node.members.len().saturating_add(node.spreads.len());
        let is_paid = self.steps_on(toll, more, may_pay(toll, &node.members));
        if !is_paid {
            return Ok(());
        }
        self.pass_members(toll, &node.members)?;
        self.note_spreads(&node.spreads)
    }

    /// Visits the fragments that are noted, from this index on, and those that they lead to.
    fn pass_fragments(
        &mut self,
        toll: Toll<'_>,
        sets: &FieldSets<'doc>,
        mut entered: usize,
    ) -> Result<(), AllocError>
        ensures { OnOk result (WalksOn sets.now entered (state_of self.old) (state_of self.new)) }
    {
        while self.is_whole && entered < self.spread.len() {
            let place = self.spread[entered];
            let fragment = fragment_of(sets, place)?;
            self.pass_node(toll, fragment)?;
            entered += 1;
        }
        Ok(())
    }

    /// Walks over the set of a node, and over each fragment that it reaches and that no set before it reached.
    fn walk(
        &mut self,
        toll: Toll<'_>,
        sets: &FieldSets<'doc>,
        node: usize,
    ) -> Result<(), AllocError>
        ensures { OnOk result (WalksOver sets.now node (state_of self.old) (state_of self.new)) }
    {
        let entered = self.spread.len();
        let start = node_of(sets, node)?;
        self.pass_node(toll, start)?;
        self.pass_fragments(toll, sets, entered)
    }
}

/// The merged list of the sets of these nodes: what they select, through fragments, each content once ("mergedSet"), as far as that is
/// paid.
pub fn merged_list<'doc>(
    alloc: Global,
    sets: &FieldSets<'doc>,
    toll: Toll<'_>,
    nodes: &[usize],
) -> Result<MergedList<'doc>, AllocError>
    requires sets { AreSets sets.now }
    requires starts { HasAllStarts sets.now }
    ensures whole { IfOk result (λ r. IsTrue r.is_whole → IsMerged (meant_fragments sets.now.fragments.now) (meant_sets sets.now nodes.now) r.members.items) }
    ensures part { IfOk result (λ r. IsPartOfMerged (meant_fragments sets.now.fragments.now) (meant_sets sets.now nodes.now) r.members.items) }
    ensures members { IfOk result (λ r. AreMembersOf sets.now r.members.items) }
{
    let mut walk = NodeWalk {
        members: Vec::new(alloc),
        numbers: NumberSet::new(alloc),
        spread: IndexSet::new(alloc),
        fresh: 0,
        steps: 0,
        is_whole: true,
    };
    for node in nodes {
        walk.walk(toll, sets, *node)?;
    }
    Ok(MergedList {
        members: walk.members,
        is_whole: walk.is_whole,
        steps: walk.steps,
    })
}
