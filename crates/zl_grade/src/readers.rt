//! Who reads the grade of each occurrence and place.
ghost use Rattle.std.specs.Prelude.{◌≡◌, length, IfOk, OnOk};
ghost use Rattle.zl_grade.specs.Chains.{start_of, occs_with, places_with, HasNode, HasChains, HasReaders};
ghost use Rattle.zl_grade.specs.Equations.{with_reader};
ghost use Rattle.zl_grade.specs.Graded.{grading_of};

use crate::equations::may_rise;
use crate::node::{Link, Node};
use std::alloc::{AllocError, Global};
use zl_meaning::Grades;

/// Links, and for each node a chain of those that lead from it. In a chain 0 is the end, and any other number is one more
/// than that of a link.
#[derive(Drop)]
pub(crate) struct Readers<'a> {
    links: &'a [Link],
    /// The last link from each occurrence.
    occs: Vec<usize>,
    /// The last link from each place.
    places: Vec<usize>,
    /// For each link, the one before it from the same node.
    before: Vec<usize>,
}

/// Where the chain of a node begins.
fn start(occs: &[usize], places: &[usize], node: Node) -> usize
    ensures { result ≡ start_of occs.now places.now node }
{
    let found = match node {
        Node::Occ(k) => occs.get(k),
        Node::Place(p) => places.get(p),
    };
    match found {
        Some(number) => *number,
        None => 0,
    }
}

/// Lets the chain of a node begin here. A node that isn't there has none.
fn begin(occs: &mut Vec<usize>, places: &mut Vec<usize>, node: Node, number: usize)
    ensures occs { occs.new.items ≡ occs_with node number occs.old.items }
    ensures places { places.new.items ≡ places_with node number places.old.items }
{
    match node {
        Node::Occ(k) => {
            if k < occs.len() {
                occs[k] = number;
            }
        }
        Node::Place(p) => {
            if p < places.len() {
                places[p] = number;
            }
        }
    }
}

/// Adds a node, if it may have to rise where one that it reads rises to this grade.
fn add_reader(
    grades: &Grades,
    grade: u8,
    reader: Node,
    nodes: &mut Vec<Node>,
) -> Result<(), AllocError>
    ensures { OnOk result (nodes.new.items ≡ with_reader (grading_of grades.now) grade reader nodes.old.items) }
{
    if may_rise(grades, reader, grade) {
        nodes.push(reader)?;
    }
    Ok(())
}

impl<'a> Readers<'a> {
    /// The chains of the links, for so many occurrences and places.
    pub(crate) fn new(
        alloc: Global,
        links: &'a [Link],
        occs: usize,
        places: usize,
    ) -> Result<Readers<'a>, AllocError>
        ensures { IfOk result (HasChains links.now occs places) }
    {
        let mut of_occs = vec![in alloc; 0; occs]?;
        let mut of_places = vec![in alloc; 0; places]?;
        let mut before = Vec::new(alloc);
        for (i, link) in links.iter().enumerate() {
            before.push(start(of_occs.as_slice(), of_places.as_slice(), link.from))?;
            begin(&mut of_occs, &mut of_places, link.from, i + 1);
        }
        Ok(Readers {
            links,
            occs: of_occs,
            places: of_places,
            before,
        })
    }

    /// Adds the nodes that read the grade of this one and may have to rise where it rises to this grade. A place is added only
    /// where its grade is smaller, and so at most twice for all of its definers.
    pub(crate) fn add(
        &self,
        grades: &Grades,
        node: Node,
        grade: u8,
        nodes: &mut Vec<Node>,
    ) -> Result<(), AllocError>
        requires chains { HasChains self.now.links.now (length self.now.occs.items) (length self.now.places.items) self.now }
        requires within { HasNode self.now.occs.items self.now.places.items node }
        ensures { OnOk result (HasReaders self.now.links.now (grading_of grades.now) node grade nodes.old.items nodes.new.items) }
    {
        let mut at = start(self.occs.as_slice(), self.places.as_slice(), node);
        while at > 0 {
            let link = at - 1;
            add_reader(grades, grade, self.links[link].to, nodes)?;
            at = self.before[link];
        }
        Ok(())
    }
}
