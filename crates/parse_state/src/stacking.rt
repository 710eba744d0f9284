// Values that come, and what is noted besides them. What is made of them isn't known here.
use crate::fault::ActionFault;
use crate::marks::PassedLimit;
use crate::state::ParseState;
use crate::value::Value;
use sparse_model::NameId;
use std::alloc::AllocError;
use tag_list::TagList;
use vocabulary::LimitKind;

// How many symbols may wait.
const MOST_PENDING: usize = 65_536;

impl<'t> ParseState<'t> {
    ghost use Rattle.std.specs.Prelude.{◌≡◌, ◌+◌, ◌<◌, ◌^◌, OnErr, OnOk, Some, drop};
    ghost use Rattle.meaning_tree.specs.Trees.{NoParts};
    ghost use Rattle.meaning_derivation.specs.Values.{ListValue, WordValue};
    ghost use Rattle.meaning_derivation.specs.State.{pushed, with_limit, with_values, with_waiting};
    ghost use Rattle.meaning_derivation.specs.Scoping.{place};
    ghost use Rattle.c_tokens.specs.Seen.{IsKnown, text_of};
    ghost use Rattle.parse_state.specs.Lying.{AreWords};
    ghost use Rattle.parse_state.specs.Seen.{state_of};

    /// A word on top of the stack.
    pub fn push_word(&mut self, token: u32, name: NameId) -> Result<(), AllocError>
        requires { IsKnown self.old.names name }
        ensures word { OnOk result (state_of self.new ≡ pushed (WordValue token (text_of self.old.names name)) (state_of self.old)) }
        ensures err { OnErr result (self.new ≡ self.old) }
        ensures names { self.new.names ≡ self.old.names }
    {
        self.values.push(Value::Word(token, name))?;
        Ok(())
    }

    /// A word on top of the stack whose spelling is that of an id, which is empty where the table doesn't have it.
    pub fn push_spelled(&mut self, token: u32, name: NameId) -> Result<(), AllocError>
        ensures word { OnOk result (state_of self.new ≡ pushed (WordValue token (text_of self.old.names name)) (state_of self.old)) }
        ensures err { OnErr result (self.new ≡ self.old) }
        ensures names { self.new.names ≡ self.old.names }
    {
        if (name.0 as usize) < self.names.len() {
            return self.push_word(token, name);
        }
        self.push_place(token)
    }

    /// The place of a token on top of the stack, as a word without a spelling.
    pub fn push_place(&mut self, token: u32) -> Result<(), AllocError>
        ensures word { OnOk result (state_of self.new ≡ pushed (place token) (state_of self.old)) }
        ensures err { OnErr result (self.new ≡ self.old) }
        ensures names { self.new.names ≡ self.old.names }
    {
        self.names.apart();
        self.values.push(Value::Word(token, NameId(0)))?;
        Ok(())
    }

    /// An empty list on top of the stack.
    pub fn push_list(&mut self) -> Result<(), AllocError>
        ensures list { OnOk result (state_of self.new ≡ pushed (ListValue NoParts) (state_of self.old)) }
        ensures err { OnErr result (self.new ≡ self.old) }
        ensures names { self.new.names ≡ self.old.names }
    {
        let list = TagList::new(self.alloc);
        self.values.push(Value::List(list))?;
        Ok(())
    }

    /// The last value, which is a word, goes.
    pub fn drop_top(&mut self)
        requires { AreWords (state_of self.old).values 1 }
        ensures state { state_of self.new ≡ with_values (state_of self.old) (drop 1 (state_of self.old).values) }
        ensures names { self.new.names ≡ self.old.names }
    {
        self.values.truncate(self.values.len().saturating_sub(1));
    }

    /// The next terminal was taken; behind it comes the token with this index. More than 2^32 of them are want of memory.
    pub fn advance(&mut self, next_token: u32) -> Result<(), AllocError>
        ensures state { OnOk result (state_of self.new ≡ record (state_of self.old) { taken = (state_of self.old).taken + 1; next_token = next_token }) }
        ensures names { self.new.names ≡ self.old.names }
    {
        if self.taken == u32::MAX {
            return Err(AllocError);
        }
        self.taken += 1;
        self.next_token = next_token;
        Ok(())
    }

    /// A limit is passed at the next terminal, unless one was passed before.
    pub fn note_limit(&mut self, limit: LimitKind)
        ensures state { state_of self.new ≡ with_limit limit (state_of self.old) }
        ensures names { self.new.names ≡ self.old.names }
    {
        if self.passed.is_none() {
            self.passed = Some(PassedLimit {
                limit,
                terminal: self.taken,
            });
        }
    }

    /// So many symbols of the grammar wait.
    pub fn note_waiting(&mut self, pending: usize)
        ensures state { state_of self.new ≡ with_waiting pending (state_of self.old) }
        ensures names { self.new.names ≡ self.old.names }
    {
        if pending > MOST_PENDING {
            self.note_limit(LimitKind::ParseStack);
        }
    }

    /// Behind a function's declarator in a body no body follows.
    pub fn note_function_end(&mut self)
        ensures state { state_of self.new ≡ record (state_of self.old) { function_end = Some (state_of self.old).taken } }
        ensures names { self.new.names ≡ self.old.names }
    {
        self.function_end = Some(self.taken);
    }
}
