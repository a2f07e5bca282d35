//! What a relay answers to `reload`.

ghost use Rattle.std.specs.Prelude.{◌≡◌, None, Some, MatchOption};
ghost use Rattle.admin_client.specs.ReloadAnswer.{Refused, words_of, behind, reload_end, refusal_in};
ghost use Rattle.admin_client.specs.ReloadText.{end_of};

/// The answer to `reload` of a relay that runs by what its files say now, if it has no memory to say what changed.
pub const RELOADED: &[u8] = b"reloaded\n";

/// The answer to `reload` of a relay that has no memory to say more.
pub const REFUSED_FOR_MEMORY: &[u8] = b"refused 4 no memory\n";

/// The words before what changed.
const RELOADED_WORDS: &[u8] = b"reloaded: ";

/// Why a relay goes on as it was: by the status with which the command ends.
#[derive(Clone, Copy)]
pub enum Refusal {
    /// The files have a fault.
    Configuration,
    /// A file cannot be read, or the system refused something.
    Device,
    /// Out of memory.
    NoMemory,
}

impl Refusal {
    /// The words before the reason.
    pub fn words(self) -> &'static [u8]
        ensures { result.now ≡ words_of self }
    {
        match self {
            Refusal::Configuration => b"refused 1 ".as_slice(),
            Refusal::Device => b"refused 3 ".as_slice(),
            Refusal::NoMemory => b"refused 4 ".as_slice(),
        }
    }
}

/// What a relay answers to `reload`.
#[derive(Clone, Copy)]
pub enum ReloadAnswer<'a> {
    /// It runs by what its files say now.
    Reloaded,
    /// It goes on as it was.
    Refused {
        /// Why.
        refusal: Refusal,
        /// The reason, up to the first byte 10.
        text: &'a [u8],
    },
}

/// What an answer to `reload` says, if it is one: `reloaded` and what changed; or `refused`, a status, and the reason.
pub fn reload_answer_in(answer: &[u8]) -> Option<ReloadAnswer<'_>>
    ensures { MatchOption result (reload_end answer.now ≡ None)
        (λ said. reload_end answer.now ≡ Some (end_of said)) }
{
    if answer == RELOADED || behind(RELOADED_WORDS, answer).is_some() {
        return Some(ReloadAnswer::Reloaded);
    }
    refusal_in(answer)
}

/// The refusal that an answer is, if it is one.
fn refusal_in(answer: &[u8]) -> Option<ReloadAnswer<'_>>
    ensures { MatchOption result (refusal_in answer.now ≡ None)
        (λ said. refusal_in answer.now ≡ Some (end_of said)) }
{
    if let Some(text) = behind(Refusal::Configuration.words(), answer) {
        return Some(refused(Refusal::Configuration, text));
    }
    if let Some(text) = behind(Refusal::Device.words(), answer) {
        return Some(refused(Refusal::Device, text));
    }
    match behind(Refusal::NoMemory.words(), answer) {
        Some(text) => Some(refused(Refusal::NoMemory, text)),
        None => None,
    }
}

/// A refusal for this reason.
fn refused(refusal: Refusal, text: &[u8]) -> ReloadAnswer<'_>
    ensures { end_of result ≡ Refused refusal text.now }
{
    ReloadAnswer::Refused { refusal, text }
}

/// What is behind these words, if a text begins with them.
pub(crate) fn behind<'a>(words: &[u8], text: &'a [u8]) -> Option<&'a [u8]>
    ensures { MatchOption result (behind words.now text.now ≡ None)
        (λ rest. behind words.now text.now ≡ Some rest.now) }
{
    if text.len() < words.len() {
        return None;
    }
    let (begun, rest) = text.split_at(words.len());
    if begun == words { Some(rest) } else { None }
}
