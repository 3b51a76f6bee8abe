//! The texts of help.

pub(crate) const ABOUT: &str =
    "Publishes OpenStreetMap edits as numbered sequences, and follows them";

pub(crate) const EXAMPLES: &str = "Examples:
  osmrepl publish folder changes.opl --now 2024-01-01T00:00:00Z --sequence 1
  osmrepl begin extract.o5m state.txt follower.save
  osmrepl follow folder follower.save
  osmrepl lag folder follower.save
  osmrepl show follower.save
  osmrepl export follower.save objects.o5m
  osmrepl convert changes.opl changes.o5c
  osmrepl audit folder
  osmrepl changes folder news.o5c --from 1001 --to 1060
  osmrepl tally folder --from 1001 --to 2440 --by user,day
  osmrepl get follower.save n123 w-5
  osmrepl counts follower.save --top 20
  osmrepl fingerprint follower.save
  osmrepl replay <script.txt >replies.txt

Exit statuses:
  0  done
  1  done, but numbers are missing, audit printed wrong files, or get found no such object
  2  the words of the command line are refused
  3  any other fault, out of memory included; one line on standard error says which
  4  another run is at work on the folder or the save; nothing was done";

pub(crate) const REPLAY: &str =
    "Runs a script of edits, closes and deliveries, and writes the replies";

pub(crate) const SCRIPTS: &str = "The script is read from standard input, as in
  osmrepl replay <script.txt >replies.txt

A script has one event a line; empty lines and lines that begin with # are ignored:
  edit LINE      the publisher takes an edit, a line of an OPL file such as
                 n1 v1 dV c7 t2024-01-01T00:00:00Z i5 uann T x1 y2
  close TIME     the pending edits are published as the next sequence, at a time such as
                 2024-01-01T00:00:00Z
  deliver N opl  published sequence N is delivered to the follower as an OPL file
  deliver N o5c  the same as an o5c file
  show           the follower shows its number, time, objects and counts of edits
  save           the follower is saved
  restart        the follower restarts from its last save, or anew if it has none
  begin N        the follower begins at published sequence N, with the objects up to it and no
                 counts

A line that isn't an event is a fault; nothing is written then. A fault names standard input as
input, and standard output as output.";

pub(crate) const PUBLISH: &str = "Publishes the changes of a file as a folder's next sequence";

pub(crate) const PUBLISHING: &str = "As in
  osmrepl publish folder changes.opl --now 2024-01-01T00:00:00Z --sequence 1

The number's files are written first, as folder/000/000/001.o5c, .opl and .state.txt, and then
folder/state.txt, so the folder is whole at every moment. The number is printed, as 'published 1'.

With --sequence the changes are published as that number or not at all, so after a fault the same
command can be run again:
  the number after the folder's newest     it is published
  the newest one, with the same changes    its files are written again
    and the same time
  an older one, with the same changes      nothing is written
    and the same time
  a published one with other changes or    refused: already published, and differs
    another time
  any other number                         refused: state.txt: at the newest number
Without --sequence, the same command run again may publish the same changes a second time.

A run locks DIR by the file DIR/.osmrepl-lock, which stays there. If another run is at work in DIR,
the fault is 'folder: in use', and the status is 4. A TIME more than a day ahead of the clock is
refused: 'time ahead'.

A fault names a file of DIR by its path in DIR, such as state.txt or 000/000/001.o5c, and CHANGES
as changes.";

pub(crate) const BEGIN: &str =
    "Begins a save with the objects of a data file; the ending of BASE says the form";

pub(crate) const BEGINNING: &str = "As in
  osmrepl begin extract.o5m state.txt follower.save
  osmrepl begin extract.o5m state.txt roads.save highway --kinds w

BASE is a data file, such as an extract or a file that export wrote. STATE is the state file of the
sequence that BASE is at. SAVE is written with the objects of BASE, the number and the time of
STATE, and no counts of edits. Whatever SAVE and its journal kept before is gone. The number is
printed, as 'number 7'. From then on, follow counts the edits of later numbers.

With --kinds or a KEY, SAVE keeps an extract: the objects of those kinds that have a tag with one of
the keys. All of BASE is checked, and the counts are those of all edits. SAVE records its kinds
and keys, and follow takes SAVE only with the same ones. Keys may come in any order, and more than
once. Kinds or keys that make no filter are refused: 'bad filter'.

A run locks SAVE and its journal by the file SAVE.lock, which stays there. If another run is at work
on SAVE, the fault is 'save: in use', and the status is 4.

A name that ends in .opl is that of an OPL file, and one that ends in .o5m that of an o5m file. BASE
may have any size, but no line or dataset of more than 64 MiB. Its objects are sorted: nodes, then
ways, then relations, each by id. Each object has its metadata, and none is deleted. A state of
number 0 is refused, so begin can't take what export writes of a save at number 0.

A STATE more than eight days older than the newest object of BASE, whether SAVE keeps that object or
not, is refused: 'state: older than the data file'. With --any-time, begin takes such a STATE.

A run of more than half a second shows on a terminal how much it has read, unless --quiet is given.

A fault names BASE as base, STATE as state, SAVE as save, and SAVE.journal as save: journal.";

pub(crate) const FOLLOW: &str = "Applies a folder's new sequences to a save";

pub(crate) const FOLLOWING: &str = "As in
  osmrepl follow folder follower.save
  osmrepl follow folder roads.save highway --kinds w
  osmrepl follow folder follower.save --limit 1000
  osmrepl follow folder follower.save --json

Each number after that of SAVE is taken from its .o5c file or, if there is none, from its .opl file.
A number is missing if it has no state file, or neither change file. SAVE goes up to the number
before the first missing one; after that number, follow only looks which files are there.
Once the new sequences are written, follow prints:
  applied LOW..HIGH  for each step
and at the end:
  missing K          for each missing number, up to N + 64; the status is then 1
  number N           the number that SAVE is at

Most runs don't rewrite a SAVE of more than 8 MiB. They write the new sequences to its journal, the
file SAVE.journal, until the journal would have more than 4 MiB. Then SAVE is rewritten with all of
the journal. SAVE means both files here, and lag, show and export read both, so move or copy them
together. A journal of another SAVE is ignored if it ends at SAVE's number or below; if it ends
above, the run is refused. Without its journal, SAVE is at an earlier number, and follow goes on
from there.

A run works in parts: after every 16 MiB of change files it writes the new sequences, prints the
numbers that it applied, and goes on. If a run is stopped, the numbers that it printed as applied
are in SAVE or in its journal.

A faulty file stops the run at its number, and the fault says the place and the cause. SAVE and the
output then cover the numbers before it. Put the right file there, or remove the faulty one, and
follow again.

A number whose time is before that of the number before it (for the first one, before that of SAVE)
is refused as a faulty one: 'sequence N: older than the number before it'. DIR may then belong to
another server.

With --limit N the run takes at most N numbers, as if the folder ended there: it doesn't look at
later numbers, and they don't make the status 1. N is from 1 to 999999999; any other limit is
refused: 'bad limit'.

With --json one line is printed instead, a JSON object, after a fault too. The run then takes all
numbers in one part:
  applied  [[LOW,HIGH],..], the ranges that were applied
  base     the number after which edits are counted
  behind   how many numbers SAVE is behind the folder
  fault    null, or the fault
  missing  [K,..], the missing numbers
  number   the number that SAVE is at
  seconds  the time from SAVE's number to the folder's newest
  time     the time of SAVE's number, as 2024-01-01T00:00:00Z
  top      the folder's newest number
A value that isn't known is null. No line is printed if the words are refused or if memory runs out.

A run that takes more than half a second shows on a terminal how many numbers are done, unless
--quiet or --json is given. A report on a terminal has ranges, as 'applied 7..2006'.

With --kinds or a KEY, SAVE keeps an extract: the objects of those kinds that have a tag with one of
the keys. The counts are those of all edits. SAVE records its kinds and keys, and a run with other
ones is refused: 'save: other filter'. Keys may come in any order, and more than once. Kinds or keys
that make no filter are refused: 'bad filter'.

A run locks SAVE and its journal by the file SAVE.lock, which stays there. If another run is at work
on SAVE, the fault is 'save: in use', and the status is 4.

A fault names a file of DIR by its path in DIR, such as state.txt or 000/000/001.o5c, SAVE as save,
and SAVE.journal as save: journal.";

pub(crate) const LAG: &str = "Prints how far a save is behind a folder";

pub(crate) const LAGGING: &str = "As in
  osmrepl lag folder follower.save
  osmrepl lag folder follower.save --json

It prints 'behind B', how many numbers SAVE is behind the folder, and 'seconds S', the time from
SAVE's sequence to the folder's newest, or 'seconds none' if nothing was followed yet. It reads only
the first lines of SAVE and of its journal.

With --json one line is printed instead, a JSON object, after a fault too. It has the keys that
'osmrepl follow --help' lists; 'applied' and 'missing' are null.

A fault names DIR/state.txt as state.txt, SAVE as save, and SAVE.journal as save: journal.";

pub(crate) const SHOW: &str = "Prints what a save holds";

pub(crate) const SHOWING: &str = "As in
  osmrepl show follower.save

It prints the number and the time, the objects as lines of an OPL file, and the users and the
changesets with their counts of edits. If the save began with a data file, 'base B' comes after the
number: the counts are then those of the numbers after B. The journal beside SAVE is included in
all of this. If the reader of the output ends early, as head does, no fault is printed, and the
status is 3.

A run of more than half a second shows on a terminal how much it has read, unless --quiet is given
or the output goes to the terminal.

A fault names SAVE as save, and SAVE.journal as save: journal.";

pub(crate) const EXPORT: &str =
    "Writes the objects of a save as a data file; the ending of OUT says the form";

pub(crate) const EXPORTING: &str = "As in
  osmrepl export follower.save objects.o5m

The objects are sorted: nodes, then ways, then relations, each by id. A name that ends in .opl is
that of an OPL file, and one that ends in .o5m that of an o5m file. The journal beside SAVE is
included. The number, the time and the counts of edits aren't written. Nothing is printed.

begin takes OUT together with the state file of the save's number, which lag --json and show print.

A run of more than half a second shows on a terminal how much it has read, unless --quiet is given.

A fault names SAVE as save, SAVE.journal as save: journal, and OUT as output.";

pub(crate) const CONVERT: &str = "Converts a change file; the ending of OUT says the form";

pub(crate) const CONVERTING: &str = "As in
  osmrepl convert changes.opl changes.o5c

A name that ends in .opl is that of an OPL file, and one that ends in .o5c that of an o5c file. OUT
may not be IN. Nothing is printed.

A fault names IN as input, and OUT as output.";

pub(crate) const AUDIT: &str = "Checks whether a folder is whole, and prints what is wrong";

pub(crate) const AUDITING: &str = "As in
  osmrepl audit folder
  osmrepl audit folder --from 1001 --to 2000
  osmrepl audit folder --json

Each number from N to M has to have its files in the folder (N and M have 1 to 9 digits):
  its state file, with its number, and with a time not before that of the number before it
  its .o5c file, its .opl file, or both; each can be read, and both have the same changes in the
    same order
The folder's state.txt has to have the time of number M, if it is at M.

'ok N..M' is printed if nothing is wrong. Otherwise each wrong file is printed, by rising number,
and the status is 1:
  FILE: CAUSE             as 000/000/007.opl: differs, or 000/000/009.o5c: not there
  FIRST..LAST: not there  the numbers from FIRST to LAST have no file at all
The state of the number before N isn't read, so the time of N is compared with none. No file is
written, and no lock taken.

If --to is left out, state.txt has to be there, and M is its number. A folder at number 0 is
'ok 1..0'. If --to is given, state.txt needn't be there, nor be at M. N has to be at least 1 and at
most M, or the range is refused: 'bad range'.

With --json one line is printed instead, a JSON object, after a fault too:
  fault     null, or the fault
  findings  [{\"cause\":..,\"file\":..,\"number\":..},..]; number is M for state.txt; numbers
            without a file are {\"cause\":\"not there\",\"number\":FIRST,\"to\":LAST}
  from      N
  to        M
After a fault all but the fault are null. No line is printed if --from or --to isn't a number or if
memory runs out.

A run that takes more than half a second shows on a terminal how many numbers are done, unless
--quiet or --json is given.";

pub(crate) const CHANGES: &str =
    "Writes what some numbers of a folder change; the ending of OUT says the form";

pub(crate) const CHANGING: &str = "As in
  osmrepl changes folder news.o5c --from 1001 --to 1060
  osmrepl changes folder roads.opl highway --kinds w --from 1001 --to 1060
  osmrepl changes folder news.o5c --from 1001 --to 1060 --json

The numbers from N to M (1 to 9 digits each) are read as follow reads them. OUT is written with the
last change of each object that they change, deletions included: nodes, then ways, then relations,
each by id. A name that ends in .opl is that of an OPL file, and one that ends in .o5c that of an
o5c file. OUT brings a copy of the objects from N - 1 to M. It may have more changes than convert
and publish take. Once it is written, changes prints:
  changes N..K: C objects  K is the number that was reached, and C the number of changes in OUT
  missing J                for each missing number, as follow does; the status is then 1

With --kinds or a KEY, OUT is for a copy of the objects of those kinds that have a tag with one of
the keys. If the last change of an object isn't such an object, OUT has a deletion instead, with the
version, changeset, time and user of that change. So OUT also has deletions of objects that the copy
never had. Kinds or keys that make no filter are refused: 'bad filter'.

If M is above the folder's newest number, that one is meant. N has to be at least 1, and at most M
and the folder's newest number (0 without a state.txt), or the range is refused: 'bad range'. No
number before N is read, so the time of N is compared with none.

A missing or faulty number ends the run as it ends follow. OUT then has the changes of the numbers
before it, and isn't written if there are none. The fault of a faulty number comes after the line of
the numbers before it, and the status is 3.

With --json one line is printed instead, a JSON object, after a fault too:
  changes  C
  fault    null, or the fault
  from     N
  missing  [J,..], the missing numbers
  to       K
If OUT isn't written, changes, from and to are null, and if the run is refused, missing is too. No
line is printed if memory runs out, or if the words are refused, except for 'bad range' and
'unknown form'.

OUT is written whole or not at all, and folders that it lacks are made. No other file is written,
and no lock taken.

A run that takes more than half a second shows on a terminal how many numbers are done, unless
--quiet or --json is given.

A fault names a file of DIR by its path in DIR, such as state.txt or 000/000/001.o5c, and OUT as
output.";

pub(crate) const TALLY: &str = "Counts the changes of some numbers of a folder";

pub(crate) const TALLYING: &str = "As in
  osmrepl tally folder --from 1001 --to 2440
  osmrepl tally folder --from 1001 --to 2440 --by user,day
  osmrepl tally folder --from 1001 --to 2440 --by day,user,changeset --json

The numbers from N to M (1 to 9 digits each) are read as follow reads them, and their changes are
counted. The rows are printed as CSV with a head, one for each combination of COLUMNS that some
change has, in rising order. COLUMNS are some of these, each once, with commas between them:
  day        the day of the change's own time in UTC, as 2024-01-31
  user       two columns, uid and user: the id, and the last name that it had in these numbers
  changeset  the changeset
  kind       n, w or r
Then each row has these counts:
  created     changes that are a version 1
  modified    changes that are a later version
  deleted     deletions
  changesets  different changesets
Changes without an author count as those of user 2147483647, anonymous. With --json each row is
printed as a JSON object, one a line, instead of CSV.

The counts of N..M and of the numbers after M add up to those of all of them, except for changesets,
if M was no more than the folder's newest number.

If M is above the folder's newest number, that one is meant. N has to be at least 1, and at most M
and the folder's newest number (0 without a state.txt), or the range is refused: 'bad range'. No
number before N is read, so the time of N is compared with none. Other columns are refused: 'bad
columns'.

A missing or faulty number ends the run as it ends follow; the rows are then those of the numbers
before it. Each missing number is said on standard error, as 'missing K', and the status is 1. The
fault of a faulty number comes there too, and the status is 3.

No file is written, and no lock taken. If the reader of the output ends early, no fault is printed,
and the status is 3.

A run that takes more than half a second shows on a terminal how many numbers are done, unless
--quiet or --json is given.

A fault names a file of DIR by its path in DIR, such as state.txt or 000/000/001.o5c.";

pub(crate) const GET: &str = "Prints objects of a save";

pub(crate) const GETTING: &str = "As in
  osmrepl get follower.save n123 w-5
  osmrepl get follower.save r7 -r --json
  osmrepl get follower.save - <objects.txt

An OBJECT is n, w or r and an id, as an OPL file writes it, or - for standard input, which has one
OBJECT a line and is read once: a second - names none. Each object is printed as its line of an OPL
file, in the order of the words. The journal beside SAVE is included. An object that isn't there is
said on standard error, as 'n7: not there', and the status is then 1.

With -r the objects that a printed object refers to come after all others, each once, by kind and
id: the nodes of a way, and the members of a relation. Those that aren't there are said as well.
What they refer to in turn isn't printed.

With --json each object is printed as a JSON object, one a line, with the names of the OSM API:
type, id, lat, lon, version, timestamp, changeset, uid, user, tags, nodes and members.

A word that is no object is refused before anything is read: 'bad object'. A line of standard input
that is none ends the run; what comes before it is printed.

Of SAVE only the beginning is read, and the parts in which the objects are. So a fault elsewhere in
SAVE isn't found, as show finds it. No file is written, and no lock taken. If the reader of the
output ends early, no fault is printed, and the status is 3.

A fault names SAVE as save, SAVE.journal as save: journal, and standard input as input.";

pub(crate) const COUNTS: &str = "Prints the counts of edits that a save has";

pub(crate) const COUNTING: &str = "As in
  osmrepl counts follower.save
  osmrepl counts follower.save --top 20
  osmrepl counts follower.save --by changeset --csv
  osmrepl counts follower.save 5 17 --json

The edits of each user, or in each changeset, are those of the numbers that SAVE has followed,
overwritten and deleted ones too. The journal beside SAVE is included. A line 'ID COUNT' is printed
for each user or changeset with an edit, by id. With IDs those alone are printed, in the order of
the words, with 0 for one without edits. With --top N the N largest counts are printed, the largest
first, and equal ones by id; no ID may stand beside it: 'bad limit'.

With --csv the lines are CSV, and come after a head, as
  user,count
  5,1
With --json one line is printed instead, a JSON object, as
  {\"by\":\"user\",\"counts\":[{\"id\":5,\"count\":1}]}
which goes before --csv.

An ID is a number below 4294967296, without a sign or zeros before it. Any other is refused:
'bad id'. So is a COLUMN other than user and changeset: 'bad columns'. No file is written, and no
lock taken. If the reader of the output ends early, as head does, no fault is printed, and the
status is 3.

A fault names SAVE as save, and SAVE.journal as save: journal.";

pub(crate) const FINGERPRINT: &str = "Prints a sum of the objects that a save has";

pub(crate) const FINGERPRINTS: &str = "As in
  osmrepl fingerprint follower.save
  osmrepl fingerprint follower.save --keys 100000

It prints 'number K objects C sha256 HEX'. K is the number that SAVE is at, C how many objects it
has, and HEX the SHA-256 of their lines as show prints them. The journal beside SAVE is included.
Two saves whose C and HEX are equal have the same objects, with whatever data file they began.

With --keys N a line comes first for each N objects, as 'n1 objects N sha256 HEX': the first of
these objects, and the sum of their lines. The last of these lines may have fewer objects. So two
saves that differ can be compared part by part.

SAVE and its journal are checked as show checks them, before anything is printed. No file is
written, and no lock taken. If the reader of the output ends early, no fault is printed, and the
status is 3.

A run of more than half a second shows on a terminal how much it has read, unless --quiet is given.

A fault names SAVE as save, and SAVE.journal as save: journal.";
