//! The lines that a script may have.

/// Each line with a sentence, and what their letters stand for.
pub(crate) const LINE_LIST: &str =
    "begin N T S ..     Begins a transaction of a thread, and locks the segments; rS locks one for reading.
range N T S O L    Says that the transaction is about to change L bytes from O on.
write N T S O HEX  Writes these bytes inside its ranges.
read N T S O L     Reads L bytes of a locked segment.
abort N T          Ends the transaction without a commit: the bytes are as before.
reserve N T        Gives its record a place in the node's log.
close N T          Completes the record and frees its locks.
end N T            Reserves and closes: the commit.
step N             Makes one of the four steps by which closed records become stable.
flush N            Makes the steps that are left of a flush.
truncate N         Flushes the node's log, writes its pages and empties the log.
leave N S          Takes the segment's token from the node.
arrive N S         Gives the token that is on its way to the node.
deliver N K S N    Brings record K of the first node to the second, for one segment.
trim N             Drops stable records that all nodes have applied.
page N S P         Makes one of the six calls that write a page.
reset N            Makes one of the four steps that empty a node's log.
stop C             Stops all nodes; what was not stable is then as C says: keep, stable or two digits.
rstep              Makes one step of a recovery.
recover            Makes the steps that are left of a recovery.
log N              Shows the words of the records in the node's log.
inspect N          Shows these records, one a line.
show N S P         Shows a page as the node has it in memory.
# ..               Is a comment, and skipped, as an empty line is.

N is a node, T a thread, S a segment, P a page, O an offset and L a length in bytes, K the number of a record.
";
