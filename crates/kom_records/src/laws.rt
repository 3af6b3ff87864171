ghost use Rattle.std.specs.Prelude.{◌≡◌, ℕ, List, Some};
ghost use Rattle.kom_types.specs.declared.items.Item.TheVariants as item;
ghost use Rattle.kom_types.specs.declared.messages.Message.{Message as MessageValue};
ghost use Rattle.kom_types.specs.declared.replies.Reply.{Reply as ReplyValue};
ghost use Rattle.kom_types.specs.Printing.{print_of};
ghost use Rattle.kom_types.specs.Token.{Token};
ghost use Rattle.kom_records.specs.declared.replies.ResultKind.{ResultKind as Kind};
ghost use Rattle.kom_records.specs.Fits.{IsNumber};
ghost use Rattle.kom_records.specs.Messages.{IsMessage, IsMessageLine};
ghost use Rattle.kom_records.specs.Printed.{IsSplit};
ghost use Rattle.kom_records.specs.Replies.{IsReply, IsReplyLine, reference_of};

/// One grammar: what a server prints of a reply is a line whose tokens are read as that reply.
pub fn printed_replies_are_read()
    ensures { (which : Kind) (reference : ℕ) (body : ReplyValue)
        → IsNumber reference → IsReply which body
        → IsSplit (print_of (item.Reply reference body))
        (λ tokens. IsReplyLine which tokens (reference, body)) }
{}

/// One grammar: what a server prints of a message is a line whose tokens are read as that message.
pub fn printed_messages_are_read()
    ensures { (of : MessageValue) → IsMessage of
        → IsSplit (print_of (item.Message of)) (λ tokens. IsMessageLine tokens of) }
{}

/// A line that spells a reply begins with its reference.
pub fn references_are_told()
    ensures { (which : Kind) (tokens : List Token) (reference : ℕ) (body : ReplyValue)
        → IsReplyLine which tokens (reference, body) → reference_of tokens ≡ Some reference }
{}
