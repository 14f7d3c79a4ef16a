//! What is stored for the groups of a plan besides their nodes.
//! Fast: a group has 9 bytes beside its command. Spares 23 bytes.
//! Fast: whether a command can be written is asked once, as it is stored. Spares a look-up of it.
ghost use Rattle.std.specs.Prelude.{◌≡◌, ◌++◌, ◌∷◌, [], OnOk, false, get_or, length, option_map, take, true};
ghost use Rattle.std.specs.List.{list_all, list_any};
ghost use Rattle.std.specs.Option.{option_to_list};
ghost use Rattle.kt_ninja.specs.Writable.{is_writable_making};
ghost use Rattle.kt_recipe.specs.views.Commands.{command_in};
ghost use Rattle.kt_ninja.specs.Plan.{made_by};
ghost use Rattle.kati.specs.inner.plan.Drawn.{first_joined, joined_view, no_drawn};

use kt_list::Rows;
use kt_ninja::command_can_hold;
use kt_rules::Name;
use std::alloc::{AllocError, Global};
use std::boxed::Box;
use std::marker::Model;

/// The joined prerequisites of the members of a group.
#[derive(Drop)]
pub(crate) struct JoinedNeeds {
    pub inputs: Vec<Name>,
    pub order_only: Vec<Name>,
}

/// What is stored for each group, in order: its command, and 9 bytes.
///
/// All commands together have at most 4,294,967,295 bytes: more are refused as if memory were.
#[derive(Drop)]
pub(crate) struct Sketch {
    // Each is empty if the group has none.
    commands: Rows<u8>,
    // A row of one for a group with several members, and else an empty one.
    joined: Rows<Box<JoinedNeeds>>,
    always: Vec<bool>,
    // Whether each command can be written.
    writable: bool,
}

impl Model for Sketch {
    ghost use Rattle.std.specs.Prelude.{List};
    ghost use Rattle.kati.specs.inner.plan.Drawn.{AreOfGroups, GroupSketch, all_drawn};

    ghost Value = { List GroupSketch };

    ghost view = { λ sketch. all_drawn sketch.commands sketch.joined sketch.always.items };

    ghost invariant = { λ sketch. AreOfGroups sketch.commands sketch.joined sketch.always.items sketch.writable };
}

impl Sketch {
    pub(crate) fn new(alloc: Global) -> Sketch
        ensures { result ≡ [] }
    {
        Sketch {
            commands: Rows::new(alloc),
            joined: Rows::new(alloc),
            always: Vec::new(alloc),
            writable: true,
        }
    }

    /// The number of groups.
    pub(crate) fn len(&self) -> usize
        ensures { result ≡ length self.now }
    {
        self.always.len()
    }

    /// Whether one of them is always made.
    pub(crate) fn has_always(&self) -> bool
        ensures { result ≡ list_any (λ drawn. drawn.always) self.now }
    {
        any_always(self.always.as_slice())
    }

    /// Whether each command can be written. Nothing is promised where it isn't known that all can.
    pub(crate) fn has_writable_commands(&self) -> bool
        ensures quick { result ≡ true → list_all (λ drawn. is_writable_making (made_by drawn.command)) self.now ≡ true }
    {
        self.writable
    }

    /// Adds a group at the end.
    pub(crate) fn push(
        &mut self,
        always: bool,
        joined: Option<Box<JoinedNeeds>>,
        command: &[u8],
    ) -> Result<(), AllocError>
        ensures { OnOk result (self.new ≡ self.old ++ record {
          always = always;
          joined = option_map (λ b. joined_view b.value) joined;
          command = command_in command.now;
        } ∷ []) }
    {
        let groups = self.always.len();
        self.always.reserve(1)?;
        self.commands.push_row(command)?;
        if push_joined(&mut self.joined, joined).is_err() {
            self.commands.truncate(groups);
            self.joined.truncate(groups);
            return Err(AllocError);
        }
        self.always.push_reserved(always);
        self.writable = self.writable && command_can_hold(command);
        Ok(())
    }

    /// Whether the group at a place is always made.
    #[inline(always)]
    pub(crate) fn always(&self, place: usize) -> bool
        ensures { result ≡ (get_or self.now place no_drawn).always }
    {
        flag_at(self.always.as_slice(), place)
    }

    /// The joined prerequisites of the members of the group at a place, if there are several.
    #[inline(always)]
    pub(crate) fn joined(&self, place: usize) -> Option<&JoinedNeeds>
        ensures { option_map (λ b. joined_view b.now) result ≡ (get_or self.now place no_drawn).joined }
    {
        first_of(self.joined.row_at(place))
    }

    /// The command of the group at a place, which is empty if there is none.
    #[inline(always)]
    pub(crate) fn command(&self, place: usize) -> &[u8]
        ensures { command_in result.now ≡ (get_or self.now place no_drawn).command }
    {
        self.commands.row_at(place)
    }
}

fn any_always(always: &[bool]) -> bool
    ensures { result ≡ list_any (λ one. one) always.now }
{
    always.iter().any(|one| *one)
}

fn flag_at(flags: &[bool], place: usize) -> bool
    ensures { result ≡ get_or flags.now place false }
{
    flags.get(place).copied().unwrap_or(false)
}

// Adds a row of one or none. If memory runs out, the row may be there.
fn push_joined(
    rows: &mut Rows<Box<JoinedNeeds>>,
    joined: Option<Box<JoinedNeeds>>,
) -> Result<(), AllocError>
    ensures added { OnOk result (rows.new ≡ rows.old ++ option_to_list joined ∷ []) }
    ensures kept { take (length rows.old) rows.new ≡ rows.old }
{
    rows.open_row()?;
    match joined {
        Some(joined) => rows.push(joined),
        None => Ok(()),
    }
}

fn first_of(joined: &[Box<JoinedNeeds>]) -> Option<&JoinedNeeds>
    ensures { option_map (λ b. joined_view b.now) result ≡ first_joined joined.now }
{
    match joined {
        [first, ..] => Some(first.as_ref()),
        [] => None,
    }
}
