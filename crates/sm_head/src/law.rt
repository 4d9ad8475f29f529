//! Laws of heads. Each is the contract of a function that does nothing.
ghost use Rattle.std.specs.Prelude.{◌≡◌, ◌<◌, ◌^◌, ◌⊎◌, ℕ, Bool, true, List, [], ◌∷◌, ◌++◌, codes, length, drop, Result, Ok, Err};
ghost use Rattle.http.specs.StatusCode.{IsStatusCode};
ghost use Rattle.sm_head.specs.Replies.{crlf, status_line, reply_head, reply_text};
ghost use Rattle.sm_head.specs.Responses.{IsRespAnswer, IsButForMemory, written_framing};
ghost use Rattle.sm_head.specs.Shown.{shows_status, body_of};
ghost use Rattle.sm_head.specs.declared.reply.Content.{Content};
ghost use Rattle.sm_head.specs.declared.reply.Content.TheVariants.{Plain};
ghost use Rattle.sm_head.specs.declared.reply.TheConstants.{NO_MEMORY, CONTINUE};
ghost use Rattle.sm_head.specs.declared.response.RespHead.{RespHead};
ghost use Rattle.sm_head.specs.declared.response.RespHead.TheVariants.{Whole, Partial};
ghost use Rattle.sm_head.specs.declared.response.RespFault.{RespFault};
ghost use Rattle.sm_head.specs.declared.response.RespFault.TheVariants as fault;

/// The reply that stands ready for want of memory is the one that would be written.
pub fn no_memory_is_told()
    ensures { NO_MEMORY.now ≡ reply_text 500 Plain (codes "33 NoMemory" ++ 10 ∷ []) true }
{}

/// What leaves a client to send its body is the head of a reply with the status 100, its phrase and no field.
pub fn continue_is_told()
    ensures { CONTINUE.now ≡ status_line 100 ++ crlf }
{}

/// The bytes of an answer have one reading, beside want of memory.
pub fn answer_has_one_reading()
    ensures { (bytes : List ℕ) (one other : Result RespHead RespFault) → IsRespAnswer bytes one → IsRespAnswer bytes other
        → (one ≡ Err fault.NoMemory) ⊎ IsButForMemory other one }
{}

/// A reply that was written is read again, whatever bytes follow it: its status, its length, and the framing of its body,
/// whose bytes begin behind the head. A length has at most 18 digits, so the body has fewer than 10^18 bytes.
pub fn written_reply_is_read()
    ensures head { (status : ℕ) (kind : Content) (body : List ℕ) (close : Bool) (more : List ℕ) (answer : Result RespHead RespFault)
        → IsStatusCode status → length body < 10 ^ 18 → IsRespAnswer (reply_text status kind body close ++ more) answer
        → IsButForMemory answer (Ok (Whole (length (reply_head status kind (length body) close)) status (written_framing status (length body)))) }
    ensures body { (status : ℕ) (kind : Content) (body : List ℕ) (close : Bool) (more : List ℕ)
        → drop (length (reply_head status kind (length body) close)) (reply_text status kind body close ++ more) ≡ body ++ more }
    // As long as the head isn't whole it is waited for.
    ensures front { (status : ℕ) (kind : Content) (count : ℕ) (close : Bool) (front rest : List ℕ) (answer : Result RespHead RespFault)
        → IsStatusCode status → count < 10 ^ 18 → reply_head status kind count close ≡ front ++ rest → 0 < length rest
        → IsRespAnswer front answer → IsButForMemory answer (Ok Partial) }
{}

/// Each part of a written reply shows as its body a front of the reply's body, perhaps nothing of it.
pub fn part_shows_front_of_body()
    ensures { (status : ℕ) (kind : Content) (body : List ℕ) (close : Bool) (part more : List ℕ) → IsStatusCode status
        → part ++ more ≡ reply_text status kind body close → (rest : List ℕ) × (body_of part ++ rest ≡ body) }
{}

/// Each part of a written reply shows no status but the reply's own, and the whole reply shows that.
pub fn part_shows_its_status()
    ensures own { (status other : ℕ) (kind : Content) (body : List ℕ) (close : Bool) (part more : List ℕ) → IsStatusCode status → IsStatusCode other
        → part ++ more ≡ reply_text status kind body close → shows_status other part ≡ true → other ≡ status }
    ensures whole { (status : ℕ) (kind : Content) (body : List ℕ) (close : Bool) → shows_status status (reply_text status kind body close) ≡ true }
{}

/// The texts that stand ready show theirs: what lets a client go on 100, of which no part has a body, and what tells want of
/// memory 500.
pub fn ready_texts_show_their_status()
    ensures goes_on { (other : ℕ) (part more : List ℕ) → IsStatusCode other → part ++ more ≡ CONTINUE.now →
        shows_status other part ≡ true → other ≡ 100 }
    ensures empty { (part more : List ℕ) → part ++ more ≡ CONTINUE.now → body_of part ≡ [] }
    ensures no_memory { (other : ℕ) (part more : List ℕ) → IsStatusCode other → part ++ more ≡ NO_MEMORY.now →
        shows_status other part ≡ true → other ≡ 500 }
    ensures whole { (shows_status 100 CONTINUE.now ≡ true) × (shows_status 500 NO_MEMORY.now ≡ true) }
{
    continue_is_told();
    no_memory_is_told();
    part_shows_its_status();
}
