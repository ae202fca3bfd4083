ghost use Rattle.std.specs.Prelude.{◌≡◌};
ghost use Rattle.std.specs.FinMap as finite;
ghost use Rattle.tx_model.specs.Applications.{Application, empty_application, after_payload, application_text};
ghost use Rattle.kv_app.specs.Places.{is_op_text};

use crate::App;
use crate::check::bad_place;
use crate::numbers::{Numbers, change_all, text_of};
use crate::ops::made_ops;
use std::alloc::{AllocError, Global};
use std::marker::Model;

/// Keys with their numbers, in memory.
#[derive(Drop)]
pub struct KvApp {
    alloc: Global,
    numbers: Numbers,
}

impl Model for KvApp {
    ghost use Rattle.std.specs.FinMap as finite;
    ghost use Rattle.std.specs.Coded.{coded_list, coded_ℕ, coded_ℤ};
    ghost use Rattle.tx_model.specs.Applications.{Application};
    ghost use Rattle.kv_app.specs.Numbers.{application_of, HaveNumbers};

    ghost Value = { Application };

    ghost coded = { finite.code (coded_list coded_ℕ) coded_ℤ };

    ghost view = { λ a. application_of (λ key. key.items) a.numbers.entries };

    // A deleted key is gone.
    ghost invariant = { λ a. HaveNumbers (λ key. key.items) a.numbers.entries };
}

impl KvApp {
    /// The application with no key.
    pub fn new(alloc: Global) -> KvApp
        ensures { result ≡ empty_application }
    {
        KvApp {
            alloc,
            numbers: Numbers::new(alloc),
        }
    }

    /// The number of a key.
    pub fn get(&self, key: &[u8]) -> Option<i64>
        ensures { result ≡ finite.get self.now key.now }
    {
        match self.numbers.get(key) {
            Some(number) => *number,
            None => None,
        }
    }
}

impl App for KvApp {
    ghost State = { Application };

    ghost state = { λ app. app };

    ghost next = { after_payload };

    // A payload that is no op text changes nothing, and takes no memory.
    ghost wants = { is_op_text };

    ghost shown = { application_text };

    fn apply(&mut self, payload: &[u8]) -> Result<(), AllocError> {
        if let Some(_) = bad_place(payload) {
            return Ok(());
        }
        let ops = made_ops(self.alloc, payload)?;
        change_all(self.alloc, &mut self.numbers, &ops)
    }

    fn text(&self) -> Result<Vec<u8>, AllocError> {
        text_of(self.alloc, &self.numbers)
    }
}
