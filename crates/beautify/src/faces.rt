//! The face of a reduced tree.
ghost use Rattle.std.specs.Prelude.{◌≡◌, ◌<◌, ◌≤◌, ◌+◌, ◌*◌, true, false, IfErr, IfOk, IsOk, OnOk, Ok, [], ◌∷◌, vec_capacity};
ghost use Rattle.calc_language.specs.Faces.{face};
ghost use Rattle.calc_algebra.specs.Reduced.{is_reduced};
ghost use Rattle.beautify.specs.Drafts.{IsDraft};
ghost use Rattle.beautify.specs.OwnFaces.{has_natural_numbers};
ghost use Rattle.beautify.specs.Showing.{IsShowable};
ghost use Rattle.calc_terms.specs.Trees.{none, more, is_undef, size, AllParts};
ghost use Rattle.node_pool.specs.State.{free_of};
ghost use Rattle.tree_handles.specs.Standing.{LacksBytes, Stands, forest, KeepsRefusals, Refuses};
ghost use Rattle.calc_algebra.specs.Rewritings.{KeepsMeanings};
ghost use Rattle.tree_handles.specs.Handed.{tree_of, IsHanded, Gives, KeepsFront, Starts};
ghost use Rattle.tree_handles.specs.Expressions.{IsExpression, plain};
ghost use Rattle.tree_handles.specs.Inside.{tree_at};
ghost use Rattle.tree_handles.specs.Roots.{without_root};

use crate::draft::{Noted, join_notes, write_node};
use crate::naturals::has_natural_numbers;
use crate::parts::push_part;
use crate::pending::{Form, Pending, push};
use node_pool::{Full, Id, Pool};
use std::alloc::{AllocError, Global};
use std::marker::Model;
use tree_handles::{Handle, move_last, release};

/// The lists that faces are written with. All memory is taken at opening.
#[derive(Drop)]
pub struct Faces {
    size: u32,
    notes: Vec<Noted>,
    pending: Vec<Pending>,
}

impl Model for Faces {
    ghost use Rattle.std.specs.Prelude.{◌*◌, ◌<◌, ℕ, vec_capacity};

    // The bytes of the pools for which the lists suffice.
    ghost Value = { ℕ };

    ghost view = { λ f. f.size };

    ghost invariant = { λ f. (f.size < 8 * vec_capacity f.notes) × (f.size < 2 * vec_capacity f.pending) };
}

impl Faces {
    /// Lists that suffice for each tree in a pool of that many bytes.
    pub fn open(alloc: Global, size: u32) -> Result<Faces, AllocError>
        ensures { IfOk result (λ faces. faces ≡ size) }
    {
        let notes = Vec::with_capacity(alloc, size as usize / 8 + 1)?;
        let pending = Vec::with_capacity(alloc, size as usize / 2 + 1)?;
        Ok(Faces {
            size,
            notes,
            pending,
        })
    }

    /// The face of a reduced tree that is not Undef. A tree whose rationals are all whole and at least 0 is its own face. Any
    /// other's is written behind all trees, each node before its children, and no node is moved. Refused where a node finds no
    /// place; then the tree still stands.
    pub fn face_of(&mut self, pool: &mut Pool, reduced: Handle) -> Result<Handle, Full>
        requires stands { Stands pool.old }
        requires handed { IsHanded reduced (forest pool.old) }
        requires reduced { is_reduced (tree_of reduced pool.old) ≡ true }
        requires defined { is_undef (tree_of reduced pool.old) ≡ false }
        requires lists { pool.old.size ≤ self.old }

        // The face takes the tree's place, and each meaning of the tree is one of the face.
        ensures ok { IfOk result (λ h. Gives (without_root reduced (forest pool.old)) (forest pool.new) h (λ t. t ≡ face (tree_of reduced pool.old))) }
        ensures meanings { IfOk result (λ h. KeepsMeanings (tree_of reduced pool.old) (tree_of h pool.new)) }

        // What stood before it stands, and a refusal is counted.
        ensures front { KeepsFront (reduced ∷ []) (forest pool.old) (forest pool.new) }
        ensures kept { OnOk result (KeepsRefusals pool.old pool.new) }
        ensures refused { IfErr result (Refuses pool.old pool.new) }
        ensures caused { IfErr result (LacksBytes pool.new) }

        // A tree that is its own face takes no bytes.
        ensures own { has_natural_numbers (tree_of reduced pool.old) ≡ true → result ≡ Ok reduced }

        // Four times the tree's bytes are enough.
        ensures enough { 4 * size (tree_of reduced pool.old) ≤ free_of pool.old → IsOk result }

        ensures stands { Stands pool.new }
        ensures lists { self.new ≡ self.old }
    {
        if has_natural_numbers(pool, reduced.id()) {
            move_last(pool, &reduced);
            return Ok(reduced);
        }
        write_face(pool, reduced.id(), &mut self.notes, &mut self.pending)?;
        let face = join_notes(pool, &mut self.notes);
        release(pool, reduced);
        Ok(face)
    }
}

/// The nodes of a tree's face are placed behind all others, and noted.
fn write_face(
    pool: &mut Pool,
    tree: Id,
    notes: &mut Vec<Noted>,
    pending: &mut Vec<Pending>,
) -> Result<(), Full>
    requires stands { Stands pool.old }
    requires expression { IsExpression tree (forest pool.old) }
    requires showable { AllParts IsShowable (plain (tree_at tree (forest pool.old))) }
    requires notes { pool.old.size < 8 * vec_capacity notes.old }
    requires pending { pool.old.size < 2 * vec_capacity pending.old }
    ensures ok { OnOk result (IsDraft (forest pool.old) (more (face (plain (tree_at tree (forest pool.old)))) none) none notes.new.items pool.new) }
    ensures kept { OnOk result (KeepsRefusals pool.old pool.new) }
    ensures first { Starts (forest pool.old) (forest pool.new) }
    ensures refused { IfErr result (Refuses pool.old pool.new) }
    ensures caused { IfErr result (LacksBytes pool.new) }
    ensures room { IfErr result (λ full. free_of pool.old < 4 * size (plain (tree_at tree (forest pool.old)))) }
    ensures notes { vec_capacity notes.old ≤ vec_capacity notes.new }
    ensures pending { vec_capacity pending.old ≤ vec_capacity pending.new }
    ensures stands { Stands pool.new }
{
    notes.clear();
    pending.clear();
    push(pending, Pending::Part(Form::Face, tree));
    while let Some(next) = pending.pop() {
        match next {
            Pending::Part(form, tree) => push_part(pool, form, tree, pending),
            node => write_node(pool, &node, notes)?,
        }
    }
    Ok(())
}
