//! Builds the node of each name that goals need, using a work list.
//! Fast: a name whose only rule gives it what the last node needs takes that node's rows. Spares the product of
//! targets and prerequisites in a group.
//! Fast: all leaves have the part of the first. Spares 40 bytes a leaf.
//! Fast: the names without a node are the work that is left. Spares the depth of the system's stack.
ghost use Rattle.std.specs.Prelude.{◌≡◌, ◌<◌, ◌^◌, [], List, None, fold, length, map, option_map, slice_get, take};
ghost use Rattle.std.specs.Prelude.{false, IfOk, IsTrue, OnOk};
ghost use Rattle.kt_text.specs.Words.{Text};
ghost use Rattle.kt_rules.specs.Book.{explicit_rules, is_phony};
ghost use Rattle.kt_rules.specs.Entry.{Entry, needs_for};
ghost use Rattle.kt_rules.specs.declared.line.entry.Target.{Target as HeldTarget};
ghost use Rattle.kt_rules.specs.Names.{with_name};
ghost use Rattle.kt_rules.specs.views.Targets.{rule_view};
ghost use Rattle.kt_rules.specs.Suffixes.{suffixes_of};
ghost use Rattle.kt_graph.specs.inner.nodes.Inferring.{Infers, InfersFrom, inferred_node};
ghost use Rattle.kt_graph.specs.inner.nodes.Needed.{needing_view, single_node};
ghost use Rattle.kt_graph.specs.nodes.Node.{double_node, explicit_node, node_by, node_of, node_with, plain_node};
ghost use Rattle.kt_graph.specs.nodes.Node.{searched};
ghost use Rattle.kt_graph.specs.inner.nodes.Numbering.{IsMaking};
ghost use Rattle.kt_graph.specs.inner.nodes.GraphBuilder.{AreOf, AreTold, BuildsNode, IsBegun, IsBuilt, IsCut};
ghost use Rattle.kt_graph.specs.inner.nodes.GraphBuilder.{HasLastNeeds, IsLikeLast, IsOver, NeedsAs, NeedsAsLast};
ghost use Rattle.kt_graph.specs.inner.nodes.GraphBuilder.{ReachesMore, sole_node};
ghost use Rattle.kt_graph.specs.inner.nodes.Reached.{reached_text};
ghost use Rattle.kt_graph.specs.views.nodes.Node.{instance_view};

use crate::known::Known;
use crate::nodes::building::{
    RecipeRule, double_parts, group_of, has_double, is_leaf, kind_without, makes_several, used_rule,
};
use crate::nodes::inferring::InferredParts;
use crate::nodes::needing::Needing;
use crate::nodes::node::{Instance, NodeKind};
use crate::nodes::numbering::NameNumbers;
use crate::nodes::part::{Maker, NumberedNeeds, PartRecipe};
use crate::nodes::reached_name::ReachedName;
use crate::nodes::stored::StoredNodes;
use crate::nodes::tables::Tables;
use crate::search::choice::Chosen;
use crate::search::finding::Finder;
use indexmap::IndexSet;
use kt_rules::{Book, Explicit, Name, NeedsView, TargetRule};
use std::alloc::{AllocError, Global};

/// The names reached so far, with their numbers, and the nodes of the first of them.
///
/// The names without a node are the remaining work.
#[derive(Drop)]
pub(crate) struct GraphBuilder<'a> {
    alloc: Global,
    book: &'a Book,
    known: &'a Known<'a>,
    // Searches this book with these known names.
    finder: Finder<'a>,
    pub(crate) numbers: NameNumbers<'a>,
    pub(crate) nodes: StoredNodes<'a>,
    pub(crate) instances: IndexSet<Instance>,
    // The first leaf that needs nothing. All are stored alike.
    leaf: Option<usize>,
    // Those of the node that is being built.
    needs: NumberedNeeds,
}

impl<'a> GraphBuilder<'a> {
    pub(crate) fn new(
        alloc: Global,
        book: &'a Book,
        known: &'a Known<'a>,
    ) -> Result<GraphBuilder<'a>, AllocError>
        ensures over { IfOk result IsOver }
        ensures begun { IfOk result (λ builder. (builder.book ≡ book.entry) × (builder.known ≡ known.entry)
            × (builder.numbers ≡ []) × (builder.nodes ≡ []) × (builder.instances.keys ≡ [])) }
    {
        let tables = Tables::of_both(book.name_table(), known.listed())?;
        Ok(GraphBuilder {
            alloc,
            book,
            known,
            finder: Finder::new(alloc, book, known)?,
            numbers: NameNumbers::new(alloc, tables)?,
            nodes: StoredNodes::new(alloc),
            instances: IndexSet::new(alloc),
            leaf: None,
            needs: NumberedNeeds::none(alloc),
        })
    }

    /// Adds names to the reached ones, each unless it is there.
    pub(crate) fn reach(&mut self, goals: &[Name]) -> Result<(), AllocError>
        ensures { OnOk result (self.new ≡ record self.old { numbers = fold with_name self.old.numbers goals.now }) }
    {
        self.numbers.reach(goals)
    }

    /// Builds the node of each reached name, and of the names that these need in turn.
    #[tactic(auto, using(crate::proofs::lemmas::nodes::BuilderLemmas::fewer_left))]
    pub(crate) fn build_all(&mut self) -> Result<(), AllocError>
        requires over { IsOver self.old }
        requires none { self.old.nodes ≡ [] }
        ensures { OnOk result ((goals : List Text) → IsBegun goals self.old
            → IsBuilt self.old.book.now self.old.known.now goals self.new) }
    {
        let mut rules = Vec::new(self.alloc);
        while let Some(name) = self.next_name()? {
            self.build(&name, &mut rules)?;
        }
        Ok(())
    }

    // The first name that has no node yet.
    fn next_name(&self) -> Result<Option<ReachedName<'a>>, AllocError>
        ensures next { IfOk result (λ name. option_map reached_text name
            ≡ slice_get self.now.numbers (length self.now.nodes)) }
        ensures small { length self.now.numbers < 2 ^ 63 }
    {
        let _count = self.numbers.len();
        self.numbers.name(self.nodes.len())
    }

    // Adds the node of a name. The names that it needs become reached.
    #[tactic(auto, unfolding(crate::specs::nodes::Node::node_of))]
    fn build(
        &mut self,
        name: &ReachedName<'a>,
        rules: &mut Vec<TargetRule<'a>>,
    ) -> Result<(), AllocError>
        requires over { IsOver self.old }
        requires told { AreTold self.old }
        ensures { OnOk result (BuildsNode self.old (node_of self.old.book.now self.old.known.now
            (reached_text name.now)) self.new) }
    {
        self.find_rules(name, rules)?;
        self.build_from(name, rules.as_slice())
    }

    // As `build`, for a name that has these explicit rules. What the targets of one rule need is numbered once.
    #[tactic(auto, using(crate::proofs::lemmas::nodes::OfLemmas::explicit_of))]
    fn build_from(
        &mut self,
        name: &ReachedName<'a>,
        rules: &[TargetRule<'a>],
    ) -> Result<(), AllocError>
        requires over { IsOver self.old }
        requires told { AreTold self.old }
        requires rules { map rule_view rules.now ≡ explicit_rules self.old.book.now (reached_text name.now) }
        ensures { OnOk result (BuildsNode self.old (node_with self.old.book.now self.old.known.now
            (reached_text name.now) (map rule_view rules.now)) self.new) }
    {
        if let [rule] = rules {
            if self.is_like_last(name, *rule) {
                return self.node_like_last(*rule);
            }
        }
        self.build_by(name, rules)
    }

    // Whether the only rule of a name has a recipe, and gives it what the last node needs.
    fn is_like_last(&self, name: &ReachedName<'a>, rule: TargetRule<'a>) -> bool
        ensures quick { IsTrue result → IsLikeLast self.now (reached_text name.now) (rule_view rule.entry) }
    {
        match name {
            ReachedName::InTables(name, number) => {
                makes_several(rule) && self.needs_as_last(name, *number)
            }
            ReachedName::Other(_) => false,
        }
    }

    // Whether the rules of a name need what those of the last name with a node do.
    fn needs_as_last(&self, name: &[u8], number: usize) -> bool
        ensures quick { IsTrue result → NeedsAsLast self.now name.now }
    {
        match self.nodes.len().checked_sub(1) {
            Some(last) => self.needs_as(name, number, last),
            None => false,
        }
    }

    fn needs_as(&self, name: &[u8], number: usize, other: usize) -> bool
        ensures quick { IsTrue result → NeedsAs self.now name.now other }
    {
        let in_book = self.numbers.number_in_book(other);
        match self.numbers.get(other) {
            Some(other) => self.book.are_made_alike(name, number, other, in_book),
            None => false,
        }
    }

    // The node of a name with one rule, which needs what the last node does.
    #[tactic(auto, using(crate::proofs::lemmas::nodes::LikeLemmas::last_alone))]
    fn node_like_last(&mut self, rule: TargetRule<'a>) -> Result<(), AllocError>
        requires { HasLastNeeds self.old (needs_for (rule_view rule).0 (rule_view rule).1) }
        ensures { OnOk result (BuildsNode self.old (sole_node (suffixes_of self.old.book.now)
            (rule_view rule.entry).1.name (rule_view rule.entry)) self.new) }
    {
        let last = self.nodes.len().saturating_sub(1);
        let making = group_of(self.alloc, rule.entry)?;
        let part = PartRecipe::of_rule(self.alloc, self.book, rule)?;
        let made_with = self.making(making)?;
        let maker = Maker {
            kind: NodeKind::Explicit,
            made_with,
        };
        self.nodes.push_like(last, maker, part)
    }

    // As `build_from`, rule by rule.
    fn build_by(
        &mut self,
        name: &ReachedName<'a>,
        rules: &[TargetRule<'a>],
    ) -> Result<(), AllocError>
        requires over { IsOver self.old }
        requires rules { AreOf (reached_text name.now) (map rule_view rules.now) }
        ensures { OnOk result (BuildsNode self.old (node_with self.old.book.now self.old.known.now
            (reached_text name.now) (map rule_view rules.now)) self.new) }
    {
        if has_double(rules) {
            return self.double_node(rules);
        }
        match used_rule(rules) {
            Some(used) => self.explicit_node(used),
            None => self.searched_node(name, rules),
        }
    }

    fn double_node(&mut self, rules: &[TargetRule<'a>]) -> Result<(), AllocError>
        ensures { OnOk result ((name : Text) → AreOf name (map rule_view rules.now) → BuildsNode self.old (double_node
            (suffixes_of self.old.book.now) name (map rule_view rules.now)) self.new) }
    {
        let parts = double_parts(self.alloc, self.book, &mut self.numbers, rules)?;
        self.nodes.push_double(self.alloc, parts)
    }

    fn explicit_node(&mut self, used: RecipeRule<'a, '_>) -> Result<(), AllocError>
        ensures { OnOk result ((rules : List (Entry × HeldTarget)) → IsCut rules used.entry
            → BuildsNode self.old (explicit_node (suffixes_of self.old.book.now) (rule_view used.entry.rule).1.name
            rules (rule_view used.entry.rule)) self.new) }
    {
        let rule = used.rule;
        let making = group_of(self.alloc, rule.entry)?;
        let needing = Needing::after(rule.needs(), used.earlier, used.later);
        let part = PartRecipe::of_rule(self.alloc, self.book, rule)?;
        self.hold(NodeKind::Explicit, part, needing, making)
    }

    // Puts the explicit rules of a name in place of others.
    fn find_rules(
        &self,
        name: &ReachedName<'a>,
        rules: &mut Vec<TargetRule<'a>>,
    ) -> Result<(), AllocError>
        ensures { OnOk result (map rule_view rules.new.items
            ≡ explicit_rules self.now.book.now (reached_text name.now)) }
    {
        rules.clear();
        for rule in self.explicit(name) {
            rules.push(rule)?;
        }
        Ok(())
    }

    // The explicit rules of a name. One that stands in the book isn't hashed: its number there tells its rules.
    fn explicit(&self, name: &ReachedName<'a>) -> Explicit<'a>
        ensures { result ≡ explicit_rules self.now.book.now (reached_text name.now) }
    {
        match name {
            ReachedName::InTables(name, number) => self.book.explicit_at(name, *number),
            ReachedName::Other(name) => self.book.explicit(name.as_slice()),
        }
    }

    // Adds the node of a name whose rules have no recipe.
    fn searched_node(
        &mut self,
        name: &ReachedName<'a>,
        rules: &[TargetRule<'a>],
    ) -> Result<(), AllocError>
        requires { IsOver self.old }
        ensures { OnOk result (BuildsNode self.old (node_by self.old.book.now (reached_text name.now)
            (map rule_view rules.now) None
            (searched self.old.book.now self.old.known.now (reached_text name.now))) self.new) }
    {
        match self.inferred(name.as_slice())? {
            Some(inferred) => self.implicit_node(inferred, rules),
            None => self.plain_node(name, rules),
        }
    }

    fn plain_node(
        &mut self,
        name: &ReachedName<'a>,
        rules: &[TargetRule<'a>],
    ) -> Result<(), AllocError>
        requires { IsOver self.old }
        ensures { OnOk result (BuildsNode self.old (plain_node (suffixes_of self.old.book.now)
            (reached_text name.now) (map rule_view rules.now)
            (is_phony self.old.book.now (reached_text name.now))) self.new) }
    {
        let is_phony = self.book.is_phony(name.as_slice());
        if is_leaf(rules, is_phony) {
            return self.leaf_node();
        }
        let needing = Needing::of_rules(rules);
        let part = PartRecipe::bare(self.book);
        self.hold(kind_without(rules, is_phony), part, needing, None)
    }

    // Adds a leaf, which has the lists of the first one.
    #[tactic(auto, using(crate::proofs::lemmas::nodes::StepLemmas::holds_first))]
    fn leaf_node(&mut self) -> Result<(), AllocError>
        requires { IsOver self.old }
        ensures { OnOk result ((name : Text) → BuildsNode self.old (plain_node
            (suffixes_of self.old.book.now) name [] false) self.new) }
    {
        if let Some(leaf) = self.leaf {
            return self.nodes.push_again(leaf);
        }
        let leaf = self.nodes.len();
        let maker = Maker {
            kind: NodeKind::Leaf,
            made_with: None,
        };
        let part = PartRecipe::bare(self.book);
        self.nodes
            .push(self.alloc, maker, part, &NumberedNeeds::none(self.alloc))?;
        self.leaf = Some(leaf);
        Ok(())
    }

    // The prerequisites of the chosen rule come first.
    fn implicit_node(
        &mut self,
        inferred: InferredParts<'a>,
        rules: &[TargetRule<'a>],
    ) -> Result<(), AllocError>
        ensures { OnOk result ((name : Text) → BuildsNode self.old (inferred_node name
            (map rule_view rules.now) inferred.entry) self.new) }
    {
        let InferredParts {
            recipe,
            stem,
            needs: first,
            making,
        } = inferred;
        let needing = Needing::after(NeedsView::of(&first), rules, &[]);
        let part = PartRecipe { recipe, stem };
        self.hold(NodeKind::Implicit, part, needing, making)
    }

    // What the pattern rule that makes a name gives it; for a phony name there is no search.
    fn inferred(&mut self, name: &[u8]) -> Result<Option<InferredParts<'a>>, AllocError>
        requires { IsOver self.old }
        ensures tells { IfOk result (InfersFrom name.now (searched self.old.book.now self.old.known.now name.now)) }
        ensures kept { OnOk result (ReachesMore self.old [] [] self.new) }
    {
        if self.book.is_phony(name) {
            return Ok(None);
        }
        match self.finder.choose(name)? {
            Some(chosen) => self.inference(name, chosen),
            None => Ok(None),
        }
    }

    // What a chosen rule gives to the name that it makes.
    fn inference(
        &self,
        name: &[u8],
        chosen: Chosen,
    ) -> Result<Option<InferredParts<'a>>, AllocError>
        ensures { IfOk result (Infers name.now self.now.finder.rules chosen) }
    {
        match self.finder.patterns().get(chosen.rule) {
            Some(pattern) => Ok(Some(InferredParts::of(self.alloc, name, pattern, chosen)?)),
            None => Ok(None),
        }
    }

    // Adds a node with one part. The names that it needs become reached.
    fn hold(
        &mut self,
        kind: NodeKind,
        part: PartRecipe<'a>,
        needing: Needing<'_, '_, 'a>,
        making: Option<Instance>,
    ) -> Result<(), AllocError>
        ensures { OnOk result ((name : Text) → BuildsNode self.old (single_node name kind part.entry
            (needing_view needing.entry) (option_map instance_view making)) self.new) }
    {
        self.numbers.number_needs(needing, &mut self.needs)?;
        let made_with = self.making(making)?;
        let maker = Maker { kind, made_with };
        self.nodes.push(self.alloc, maker, part, &self.needs)
    }

    // The number of a making, if there is one.
    fn making(&mut self, making: Option<Instance>) -> Result<Option<usize>, AllocError>
        ensures making { IfOk result (IsMaking self.new.instances.keys (option_map instance_view making)) }
        ensures kept { OnOk result (take (length self.old.instances.keys) self.new.instances.keys
            ≡ self.old.instances.keys) }
        ensures others { OnOk result (self.new ≡ record self.old { instances = self.new.instances }) }
    {
        match making {
            Some(making) => {
                let (number, _) = self.instances.insert_full(making)?;
                Ok(Some(number))
            }
            None => Ok(None),
        }
    }
}
