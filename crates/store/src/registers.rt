ghost use Rattle.std.specs.Prelude.{◌≡◌, replicate, slice_set};
ghost use Rattle.bank.specs.declared.word.Word.{Word};
ghost use Rattle.collector.specs.Outcomes.{register_asked};
ghost use Rattle.store.specs.Pairs.{pair_asked};

use bank::Word;
use listcalls::StoreFault;

// The sixteen registers.
#[derive(Drop)]
pub struct Registers {
    words: [Word; 16],
}

impl Registers {
    pub fn new() -> Registers
        ensures { result.words ≡ replicate 16 Word.Nil }
    {
        Registers {
            words: [Word::Nil; 16],
        }
    }

    // The word of register r, or the refusal where there is none.
    pub fn get(&self, r: u32) -> Result<Word, StoreFault>
        ensures { result ≡ register_asked self.now.words r }
    {
        self.words
            .get(r as usize)
            .copied()
            .ok_or(StoreFault::NoRegister(r))
    }

    // The words of two registers, or the refusal of the first that there is not.
    pub fn pair(&self, r: u32, s: u32) -> Result<(Word, Word), StoreFault>
        ensures { result ≡ pair_asked self.now.words r s }
    {
        let first = self.get(r)?;
        let second = self.get(s)?;
        Ok((first, second))
    }

    // Sets register r; where there is none, nothing changes.
    pub fn set(&mut self, r: u32, word: Word)
        ensures { self.new.words ≡ slice_set self.old.words r word }
    {
        if r < 16 {
            self.words[r as usize] = word;
        }
    }

    pub fn words(&self) -> [Word; 16]
        ensures { result ≡ self.now.words }
    {
        self.words
    }
}
