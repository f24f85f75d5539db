//! The rows that a server gives its nodes anew.
ghost use Rattle.std.specs.Prelude.{◌≡◌, ◌≢◌, ℕ, ◌+◌, ◌<◌, ◌≤◌, length, IfOk, [], ◌∷◌, ◌++◌, ◌==◌, Some, None};
ghost use Rattle.std.specs.List.{list_any};
ghost use Rattle.token_server.specs.rule.RowParts.{known_node_at, rows_of, deaths_of};
ghost use Rattle.token_server.specs.code.Rows.{row_promised, given_to_known_node, with_given_row, given_rows, given_of, rows_overlaid, deaths_overlaid, deaths_with};

use super::KnownNodes;
use crate::known_nodes::commands::Commands;
use crate::known_nodes::new_row::NewRow;
use crate::known_nodes::row_edit::RowEdit;
use crate::known_nodes::server_command::ServerCommand;
use std::alloc::AllocError;

impl KnownNodes {
    /// The new row of the node (from 1) after the edit and then the command: these commands stand in it, and its
    /// token is as the command promises. There is none where the node has no row after the edit.
    pub fn given(
        &self,
        edit: &Option<RowEdit>,
        node: u8,
        commands: Commands,
        command: &ServerCommand,
    ) -> Result<NewRow, AllocError>
        requires { 1 ≤ node }
        ensures place { IfOk result (λ given. given.place + 1 ≡ node) }
        ensures row { IfOk result (λ given. given_to_known_node given (known_node_at self.now node) ≡ row_promised commands command.now (rows_overlaid self.now edit.now node)) }
    {
        let place = usize::from(node) - 1;
        let Some(known_node) = self.get(node) else {
            return Ok(NewRow { place, row: None });
        };
        let row = match edit {
            Some(edit) if edit.given.place == place => {
                known_node.promised_after(&edit.given.row, commands, command)?
            }
            _ => known_node.promised(commands, command)?,
        };
        Ok(NewRow { place, row })
    }

    /// Makes the new rows, and the edit, if there is one. Where several give a node a row, the first of `given`
    /// counts, and the edit's last. One at an index without a node changes nothing. Takes no memory.
    pub fn apply(&mut self, edit: Option<RowEdit>, given: Vec<NewRow>)
        ensures rows { (n : ℕ) → rows_of self.new n ≡ given_rows (given.items ++ given_of edit) self.old n }
        ensures deaths { deaths_of self.new ≡ deaths_overlaid self.old edit }
        ensures len { length self.new ≡ length self.old }
    {
        let Some(RowEdit { given: last, dead }) = edit else {
            self.give_each(given);
            return;
        };
        let place = last.place;
        self.give_last(last, given.as_slice());
        self.give_each(given);
        self.bury(place, dead);
    }

    // Notes for the node at the index, if there is one, that its incarnations up to this one are dead.
    fn bury(&mut self, place: usize, dead: u16)
        ensures rows { rows_of self.new ≡ rows_of self.old }
        ensures deaths { deaths_of self.new ≡ deaths_with place dead self.old }
        ensures len { length self.new ≡ length self.old }
    {
        if place < self.nodes.len() {
            self.nodes[place].dead = dead;
        }
    }

    // Makes the new row, if there is a node at its index.
    fn give(&mut self, given: NewRow)
        ensures rows { rows_of self.new ≡ with_given_row given self.old }
        ensures others { (m : ℕ) → m ≢ given.place + 1 → known_node_at self.new m ≡ known_node_at self.old m }
        ensures deaths { deaths_of self.new ≡ deaths_of self.old }
        ensures len { length self.new ≡ length self.old }
    {
        let NewRow { place, row } = given;
        if place < self.nodes.len() {
            self.nodes[place].put(row);
            self.may_exclude = self.nodes[place].notes_exclusive(self.may_exclude);
        }
    }

    // Makes the new row `last`, unless one of `others` is for the same node.
    fn give_last(&mut self, last: NewRow, others: &[NewRow])
        ensures rows { (n : ℕ) → given_rows others.now self.new n ≡ given_rows (others.now ++ last ∷ []) self.old n }
        ensures deaths { deaths_of self.new ≡ deaths_of self.old }
        ensures len { length self.new ≡ length self.old }
    {
        if !has_place(others, last.place) {
            self.give(last);
        }
    }

    // Makes the new rows. Of several for one node the first counts.
    fn give_each(&mut self, given: Vec<NewRow>)
        ensures rows { (n : ℕ) → rows_of self.new n ≡ given_rows given.items self.old n }
        ensures deaths { deaths_of self.new ≡ deaths_of self.old }
        ensures len { length self.new ≡ length self.old }
    {
        let mut given = given;
        while let Some(last) = given.pop() {
            self.give_last(last, given.as_slice());
        }
    }
}

// Whether one of the new rows is for the node at that index.
fn has_place(given: &[NewRow], place: usize) -> bool
    ensures { result ≡ list_any (λ g. g.place == place) given.now }
{
    given.iter().any(|given| given.place == place)
}
