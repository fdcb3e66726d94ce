//! Pairs of sets that are looked at together: each pair once, whichever operations it is in, by the contents of the two.
ghost use Rattle.std.specs.Prelude.{◌≡◌, ◌∷◌, [], OnOk};
ghost use Rattle.rule_field_sets.specs.Nodes.{AreSets};
ghost use Rattle.rule_field_sets.specs.Read.{set_at};
ghost use Rattle.rule_field_groups.specs.Members.{meant_sets};
ghost use Rattle.rule_field_groups.specs.MergeState.{kept_of, beside_of};
ghost use Rattle.rule_field_groups.specs.Pairs.{with_each};
ghost use Rattle.rule_field_groups.specs.Pairs.{Looks, each_with};

use crate::merge_state::{MergeState, Pair};
use rule_field_sets::FieldSets;
use std::alloc::AllocError;

impl MergeState {
    /// Looks at two sets, unless they were looked at before.
    fn look_at_pair(
        &mut self,
        sets: &FieldSets<'_>,
        one: usize,
        other: usize,
    ) -> Result<(), AllocError>
        requires { AreSets sets.now }
        ensures looks { OnOk result (Looks ((set_at sets.now one ∷ set_at sets.now other ∷ []) ∷ []) (kept_of sets.now self.old) (kept_of sets.now self.new)) }
        ensures beside { beside_of sets.now self.new ≡ beside_of sets.now self.old }
    {
        let is_new = self.note_pair(sets, one, other)?;
        if is_new {
            let pair = Pair::new(one, other)?;
            self.pairs.push(pair)?;
        }
        Ok(())
    }

    /// Looks at each of these with the other set, which comes after them.
    pub fn look_at_each(
        &mut self,
        sets: &FieldSets<'_>,
        nodes: &[usize],
        other: usize,
    ) -> Result<(), AllocError>
        requires { AreSets sets.now }
        ensures looks { OnOk result (Looks (each_with (meant_sets sets.now nodes.now) (set_at sets.now other)) (kept_of sets.now self.old) (kept_of sets.now self.new)) }
        ensures beside { beside_of sets.now self.new ≡ beside_of sets.now self.old }
    {
        for node in nodes {
            self.look_at_pair(sets, *node, other)?;
        }
        Ok(())
    }

    /// Looks at one set with each of these, which come after it.
    pub fn look_before_each(
        &mut self,
        sets: &FieldSets<'_>,
        one: usize,
        nodes: &[usize],
    ) -> Result<(), AllocError>
        requires { AreSets sets.now }
        ensures looks { OnOk result (Looks (with_each (set_at sets.now one) (meant_sets sets.now nodes.now)) (kept_of sets.now self.old) (kept_of sets.now self.new)) }
        ensures beside { beside_of sets.now self.new ≡ beside_of sets.now self.old }
    {
        for node in nodes {
            self.look_at_pair(sets, one, *node)?;
        }
        Ok(())
    }
}
