//! The texts of the long help.

/// What stands under the options of `seat`.
pub(crate) const SEAT_NOTES: &str = "\
A seat is one actor of a cluster, as a process: node NUMBER, or the token server of file
NUMBER. It reads lines on standard input, and writes a block of lines for each before it
reads the next; one for its start comes first. Whoever drives it carries the messages, and
decides who failed. The cluster is of version 2, with 1 to 64 nodes and 1 to 256 files.

Lines that it reads:
  call N PID OP, tagged TAG N PID OP    a process of the node makes a call
  deliver MESSAGE                       a message comes to the actor
  interrupt N PID, retry N PID, resend F
  tick                                  the actor tries again what is due
  declare N, restart N, fail-server F, start-server F
The last four are told to each seat, in one order: 'lockreplay members' makes that list.

Blocks end with 'end K', K entries so far, or are one line 'refused CODE'; the codes are
those of 'lockreplay run'. Of each entry stand its line, the reply with the tag of the
call, and the messages that it sends, as 'to node N MESSAGE' or 'to server F MESSAGE'.

With --log each block is in LOG before its first byte is written out; what LOG has stays.
With --clock each block has a line 'at BEGIN END' first: the clock of the system, read
before the step was made and behind it, in microseconds since 1970. It never goes back.
With --again the actor works only once it begins again: it is to be told all that
'lockreplay members' lists, from the first line on. Where it began again before, at seats
that are gone, --past says how many times: those beginnings are left to these.

Exit status: 0 at the end of the input; 2 the words of the command line are refused; 3 the
input, the output or LOG fails; 4 no memory. What stands behind the last line feed of the
input is no line. Example:
  printf 'call 1 1 spawn\\ncall 1 1 open 1 rw\\n' |
    lockreplay seat node 1 --nodes 2 --files 1 --policy wide";

/// What stands under the options of `members`.
pub(crate) const MEMBERS_NOTES: &str = "\
Keeps in STATE the one list of who was declared failed and who began again. It reads lines
on standard input, and writes a block of lines for each before it reads the next:
  declare N, fail-server F     the node, or the file's token server, is declared failed
  restart N, start-server F    it begins again, in its next incarnation or epoch
  list                         all that was told so far
To the first four it answers with the lines 'member EVENT' and 'end K', K the number of
them since the list's beginning, or with 'refused CODE' and leaves the list as it was: 10
it is not alive, 11 it is alive, 12 it had its last incarnation, 14 the cluster has none
of that number, and '9 COLUMN' where the line is none of these. To 'list' it answers with
the lines to be told to a seat that begins later, and 'end K'.

Each block of a change is in STATE, and on the disk, before it is written out, so no
incarnation and no epoch is given twice, though the program is killed. Where STATE is there
already the list goes on behind it; a last block that was not written whole is cut off. One
program at a time may have STATE. With --clock each block of a change has a line 'at BEGIN
END' first, as of 'lockreplay seat'.

Exit status: 0 at the end of the input; 2 the words of the command line are refused; 3 the
input, the output or STATE fails, or STATE has a bad line; 4 no memory. Example:
  printf 'declare 2\\nrestart 2\\nlist\\n' |
    lockreplay members --nodes 2 --files 1 --state members.list";

/// What stands under the options of `merge`.
pub(crate) const MERGE_NOTES: &str = "\
Makes one journal of the logs of seats and of the list that 'lockreplay members' keeps: an
order of all their entries in which they are a run of the cluster, and which no clock
contradicts. A block without a line 'at BEGIN END' came about at any time. Without
--members the declarations and starts are those that the longest log was told of. With
--check nothing is written to a file: it tells 'merge yes' or 'merge no'. With --skew two
clocks may differ by so much.

Exit status: 0 there is such an order; 1 there is none, and of each log that can't go on a
line on standard error says why; 2 the words of the command line are refused; 3 a file or
the output is at fault; 4 no memory, or more entries than a journal may have. Example:
  lockreplay merge node-1.log node-2.log server-1.log --members members.list \\
    --journal cluster.journal";

/// What stands under the options of `play`.
pub(crate) const PLAY_NOTES: &str = "\
Reads the lines of a script on standard input, and answers each before it reads the next.
The first line is 'cluster nodes N files F policy P'. Empty lines, and lines that begin
with #, are skipped, and have no answer. What stands behind the last line feed is no line.

Answers:
  journal 2 nodes N files F policy P    to the first line, and then 'end 0'
  entry .., reply .., send ..           the entries that the line made, as a journal has them
  end K                                 behind them: the run has K entries so far
  refused CODE                          alone: the event was refused, and nothing changed
To 'settle' the lines 'refused CODE' of messages that are refused stand before 'end K'. The
codes are those of 'lockreplay run'. All answers together are the journal of the run, but
for the lines 'refused CODE', and the lines 'end K' before the last.

Exit status: 0 at the end of the input; 2 the words of the command line are refused; 3 a
line may not stand where it does, or the input or the output fails; 4 no memory, or more
entries than a journal may have. Example:
  printf 'cluster nodes 2 files 1 policy wide\\ncall 1 1 spawn\\nsettle\\n' |
    lockreplay play";
