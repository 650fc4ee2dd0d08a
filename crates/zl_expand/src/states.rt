//! The walk of automata.
#![tactic(auto, using(crate::proofs::WalkLaws::roomy))]

ghost use Rattle.std.specs.Prelude.{◌≡◌, ◌+◌, ◌^◌, ◌<◌, length, map, OnOk, IfOk};
ghost use Rattle.zl_ast.specs.declared.eqn.State.{out-State};
ghost use Rattle.zl_flat.specs.Parts.{joined};
ghost use Rattle.zl_flat.specs.Equations as spec;
ghost use Rattle.zl_expand.specs.Walks.{Walks};
ghost use Rattle.zl_expand.specs.Room.{HasRoom};
ghost use Rattle.zl_expand.specs.Kept.{counters, instance_in, names_in, made_move};

use crate::instance::Instance;
use crate::name_index::NameIndex;
use crate::parts::{Parts, number};
use crate::walker::Walker;
use std::alloc::{AllocError, Global};
use zl_ast::{Eqn, Expr, Move, State};
use zl_flat::{Here, Root};
use zl_meaning::{Auto, AutoMove, BlockKind};
use zl_value::Sequence;

/// An automaton, the number of one of its states, and the names of all.
#[derive(Clone, Copy)]
pub(crate) struct Among<'a> {
    pub(crate) automaton: u32,
    pub(crate) state: u32,
    pub(crate) names: &'a NameIndex,
}

/// The two blocks of a state.
#[derive(Clone, Copy)]
pub(crate) struct StateBlocks {
    pub(crate) guard: u32,
    pub(crate) body: u32,
}

fn state_names(alloc: Global, states: &[State]) -> Result<NameIndex, AllocError>
    ensures { IfOk result (λ names. names ≡ map (λ s. (out-State s).name.id) states.now) }
{
    let ids = states.iter().map(|state| state.name.id).collect(alloc)?;
    NameIndex::new(alloc, ids)
}

/// Where the condition of a move stands: in the guard where the move is by `unless`, else in the body.
fn condition_place(strong: bool, blocks: StateBlocks, here: Here) -> Here
    ensures { result ≡ spec.condition_place strong blocks.guard blocks.body here }
{
    if strong {
        here.in_block(blocks.guard, here.hybrid)
    } else {
        here.in_block(blocks.body, here.hybrid)
    }
}

fn target_number(names: &NameIndex, id: u32) -> u32
    requires { length names.now < 2 ^ 32 }
    ensures { result ≡ spec.index_among names.now id }
{
    match names.find(id) {
        Some(target) => number(target),
        None => 0,
    }
}

impl<
    X: Fn(Global, &Instance<'_>, Here, u32, &Expr, &mut Parts) -> Result<Root, AllocError>,
    Q: Fn(Global, &Instance<'_>, Here, u32, &[Eqn], &mut Parts) -> Result<(), AllocError>,
> Walker<X, Q> {
    fn walk_move(
        &self,
        instance: &Instance,
        here: Here,
        blocks: StateBlocks,
        names: &NameIndex,
        one: &Move,
        out: &mut Parts,
    ) -> Result<AutoMove, AllocError>
        requires walks { Walks self.now.depth (X.pre self.now.expr) (X.post self.now.expr) (Q.pre self.now.eqns) (Q.post self.now.eqns) }
        requires room { HasRoom (self.now.depth + 1) instance.now.base out.old (spec.cond_walk instance.now.base (names_in instance.now) (instance_in instance.now) one.now.cond (spec.condition_place one.now.strong blocks.guard blocks.body here) (counters out.old)).parts }
        requires named { length names.now < 2 ^ 32 }
        ensures made { OnOk result (out.new ≡ joined out.old (spec.cond_walk instance.now.base (names_in instance.now) (instance_in instance.now) one.now.cond (spec.condition_place one.now.strong blocks.guard blocks.body here) (counters out.old)).parts) }
        ensures taken { IfOk result (λ m. m ≡ made_move one.now.strong one.now.reset (spec.cond_walk instance.now.base (names_in instance.now) (instance_in instance.now) one.now.cond (spec.condition_place one.now.strong blocks.guard blocks.body here) (counters out.old)).test (spec.index_among names.now one.now.target.id)) }
    {
        let inside = condition_place(one.strong, blocks, here);
        let cond = self.walk_cond(instance, inside, &one.cond, out)?;
        Ok(AutoMove {
            strong: one.strong,
            reset: one.reset,
            cond,
            target: target_number(names, one.target.id),
        })
    }

    fn walk_moves(
        &self,
        instance: &Instance,
        here: Here,
        blocks: StateBlocks,
        names: &NameIndex,
        moves: &[Move],
        out: &mut Parts,
    ) -> Result<Vec<AutoMove>, AllocError>
        requires walks { Walks self.now.depth (X.pre self.now.expr) (X.post self.now.expr) (Q.pre self.now.eqns) (Q.post self.now.eqns) }
        requires room { HasRoom (self.now.depth + 1) instance.now.base out.old (spec.moves_made instance.now.base (names_in instance.now) (instance_in instance.now) (map (spec.move_walk instance.now.base (names_in instance.now) (instance_in instance.now)) moves.now) blocks.guard blocks.body names.now here (counters out.old)).parts }
        requires named { length names.now < 2 ^ 32 }
        ensures made { OnOk result (out.new ≡ joined out.old (spec.moves_made instance.now.base (names_in instance.now) (instance_in instance.now) (map (spec.move_walk instance.now.base (names_in instance.now) (instance_in instance.now)) moves.now) blocks.guard blocks.body names.now here (counters out.old)).parts) }
        ensures moves { IfOk result (λ m. m.items ≡ (spec.moves_made instance.now.base (names_in instance.now) (instance_in instance.now) (map (spec.move_walk instance.now.base (names_in instance.now) (instance_in instance.now)) moves.now) blocks.guard blocks.body names.now here (counters out.old)).moves) }
    {
        let mut made = Vec::new(self.alloc);
        for one in moves {
            made.push(self.walk_move(instance, here, blocks, names, one, out)?)?;
        }
        Ok(made)
    }

    /// A state: the guard, and then the body. It answers the moves.
    fn walk_state(
        &self,
        instance: &Instance,
        here: Here,
        among: Among,
        state: &State,
        out: &mut Parts,
    ) -> Result<Vec<AutoMove>, AllocError>
        requires walks { Walks self.now.depth (X.pre self.now.expr) (X.post self.now.expr) (Q.pre self.now.eqns) (Q.post self.now.eqns) }
        requires room { HasRoom (self.now.depth + 1) instance.now.base out.old ((spec.one_state_walk instance.now.base (names_in instance.now) (instance_in instance.now) state.now).walk among.automaton among.state among.names.now here (counters out.old)).parts }
        requires named { length among.names.now < 2 ^ 32 }
        ensures made { OnOk result (out.new ≡ joined out.old ((spec.one_state_walk instance.now.base (names_in instance.now) (instance_in instance.now) state.now).walk among.entry.automaton among.entry.state among.entry.names.now here (counters out.old)).parts) }
        ensures moves { IfOk result (λ m. m.items ≡ ((spec.one_state_walk instance.now.base (names_in instance.now) (instance_in instance.now) state.now).walk among.entry.automaton among.entry.state among.entry.names.now here (counters out.old)).moves) }
    {
        let guard_kind = BlockKind::Guard {
            of: among.automaton,
            state: among.state,
        };
        let guard = out.add_block(here.inner_block(guard_kind, here.hybrid))?;
        let body_kind = BlockKind::State {
            of: among.automaton,
            state: among.state,
        };
        let body = out.add_block(here.inner_block(body_kind, here.hybrid))?;
        let inside = here.in_block(body, here.hybrid);
        self.walk_block(instance, inside, &state.body, out)?;
        let blocks = StateBlocks { guard, body };
        let moves = state.moves.as_slice();
        self.walk_moves(instance, here, blocks, among.names, moves, out)
    }

    fn walk_states(
        &self,
        instance: &Instance,
        here: Here,
        of: u32,
        states: &[State],
        out: &mut Parts,
    ) -> Result<Vec<Sequence<AutoMove>>, AllocError>
        requires walks { Walks self.now.depth (X.pre self.now.expr) (X.post self.now.expr) (Q.pre self.now.eqns) (Q.post self.now.eqns) }
        requires room { HasRoom (self.now.depth + 1) instance.now.base out.old (spec.states_made (map (spec.one_state_walk instance.now.base (names_in instance.now) (instance_in instance.now)) states.now) of 0 (map (λ s. (out-State s).name.id) states.now) here (counters out.old)).parts }
        ensures made { OnOk result (out.new ≡ joined out.old (spec.states_made (map (spec.one_state_walk instance.now.base (names_in instance.now) (instance_in instance.now)) states.now) of 0 (map (λ s. (out-State s).name.id) states.now) here (counters out.old)).parts) }
        ensures states { IfOk result (λ m. m.items ≡ (spec.states_made (map (spec.one_state_walk instance.now.base (names_in instance.now) (instance_in instance.now)) states.now) of 0 (map (λ s. (out-State s).name.id) states.now) here (counters out.old)).states) }
    {
        let names = state_names(self.alloc, states)?;
        let mut made = Vec::new(self.alloc);
        let mut state_number = 0;
        for state in states {
            let among = Among {
                automaton: of,
                state: state_number,
                names: &names,
            };
            let moves = self.walk_state(instance, here, among, state, out)?;
            made.push(Sequence::from_vec(moves))?;
            state_number += 1;
        }
        Ok(made)
    }

    pub(crate) fn walk_automaton(
        &self,
        instance: &Instance,
        here: Here,
        states: &[State],
        out: &mut Parts,
    ) -> Result<(), AllocError>
        requires walks { Walks self.now.depth (X.pre self.now.expr) (X.post self.now.expr) (Q.pre self.now.eqns) (Q.post self.now.eqns) }
        requires room { HasRoom (self.now.depth + 1) instance.now.base out.old (spec.automaton instance.now.base (names_in instance.now) (instance_in instance.now) (map (spec.one_state_walk instance.now.base (names_in instance.now) (instance_in instance.now)) states.now) here (counters out.old)) }
        ensures { OnOk result (out.new ≡ joined out.old (spec.automaton instance.now.base (names_in instance.now) (instance_in instance.now) (map (spec.one_state_walk instance.now.base (names_in instance.now) (instance_in instance.now)) states.now) here (counters out.old))) }
    {
        let of = out.leave_automaton(self.alloc)?;
        let states = self.walk_states(instance, here, of, states, out)?;
        out.set_automaton(
            of,
            Auto {
                block: here.block,
                states: Sequence::from_vec(states),
            },
        );
        Ok(())
    }
}
