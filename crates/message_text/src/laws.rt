//! The law of the texts of messages.
ghost use Rattle.messages.specs.declared.version.Version.{Version};
ghost use Rattle.message_text.specs.code.Reports.{MessagesHaveTexts};

/// The texts of messages, in each version: two messages within their limits that have one text are
/// equal; `message_of` reads each message from its text; and no text has a line feed, so that
/// messages may be sent as lines.
pub fn messages_have_texts()
    ensures { (version : Version) → MessagesHaveTexts version }
{}
