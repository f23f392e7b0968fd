//! Pairs of primitives worked out by hand, each as a patch: the two, and what they commute to, if they do. The patch's name
//! says which case it is; the contents of lines are their places.

/// Two hunks.
pub(crate) const HUNKS: &str = "\
[lines stand between, the first above
p**d] {
hunk ./f 1
+0
+1
hunk ./f 7
-0
+0
hunk ./f 5
-0
+0
hunk ./f 1
+0
+1
}

[one line stands between
p**d] {
hunk ./f 1
+0
hunk ./f 3
-0
+0
hunk ./f 2
-0
+0
hunk ./f 1
+0
}

[they touch and no count is zero
p**d] {
hunk ./f 1
-0
+0
hunk ./f 2
-0
+0
hunk ./f 2
-0
+0
hunk ./f 1
-0
+0
}

[they touch and the first has no old line
p**d] {
hunk ./f 1
+0
hunk ./f 2
-0
+0
}

[they touch and the first has no new line
p**d] {
hunk ./f 1
-0
hunk ./f 1
-0
+0
}

[they touch and the second has no old line
p**d] {
hunk ./f 1
-0
+0
hunk ./f 2
+0
}

[they touch and the second has no new line
p**d] {
hunk ./f 1
-0
+0
hunk ./f 2
-0
}

[lines stand between, the second above
p**d] {
hunk ./f 5
-0
+0
hunk ./f 1
-0
-1
hunk ./f 1
-0
-1
hunk ./f 3
-0
+0
}

[they touch, the second above, and no count is zero
p**d] {
hunk ./f 3
-0
+0
hunk ./f 2
-0
+0
+1
hunk ./f 2
-0
+0
+1
hunk ./f 4
-0
+0
}

[they touch, the second above, and the first has no old line
p**d] {
hunk ./f 3
+0
hunk ./f 2
-0
+0
}

[they touch, the second above, and the first has no new line
p**d] {
hunk ./f 3
-0
hunk ./f 2
-0
+0
}

[they touch, the second above, and the second has no old line
p**d] {
hunk ./f 3
-0
+0
hunk ./f 3
+0
+1
}

[they touch, the second above, and the second has no new line
p**d] {
hunk ./f 3
-0
+0
hunk ./f 2
-0
}

[they overlap
p**d] {
hunk ./f 1
-0
+0
+1
hunk ./f 2
-0
+0
}

[the last line is in range
p**d] {
hunk ./f 1
-0
+0
+1
hunk ./f 4294967295
-0
+0
hunk ./f 4294967294
-0
+0
hunk ./f 1
-0
+0
+1
}

[the second would be past the last line
p**d] {
hunk ./f 1
-0
-1
+0
hunk ./f 4294967295
-0
+0
}

[the first would be past the last line
p**d] {
hunk ./f 4294967295
-0
+0
hunk ./f 1
+0
}

[the files are two
p**d] {
hunk ./f 1
+0
hunk ./g 1
+0
hunk ./g 1
+0
hunk ./f 1
+0
}";

/// Works at two paths.
pub(crate) const WORKS: &str = "\
[the files are two
p**d] { addfile ./f addfile ./g
addfile ./g addfile ./f }

[only hunks of one file may commute
p**d] {
addfile ./f
hunk ./f 1
+0
}

[only hunks of one file may commute
p**d] {
hunk ./f 1
+0
rmfile ./f
}

[the file is one
p**d] { rmfile ./f addfile ./f }

[file work asks only for two paths
p**d] {
addfile ./d/f
hunk ./d 1
+0
hunk ./d 1
+0
addfile ./d/f
}

[the directories are apart
p**d] { adddir ./d adddir ./e
adddir ./e adddir ./d }

[the directory is one
p**d] { adddir ./d rmdir ./d }

[the directory contains the file
p**d] { adddir ./d addfile ./d/f }

[the directory contains the file
p**d] { addfile ./d/f rmdir ./d }

[one directory contains the other
p**d] { rmdir ./d/e rmdir ./d }

[the file's path contains the directory
p**d] {
adddir ./d/e
hunk ./d 1
+0
}

[neither contains the other
p**d] { adddir ./d addfile ./e/f
addfile ./e/f adddir ./d }";

/// A work at a path, and then a move.
pub(crate) const WORK_THEN_MOVE: &str = "\
[the file is elsewhere
p**d] { addfile ./f move ./a ./b
move ./a ./b addfile ./f }

[a hunk moves along with its file
p**d] {
hunk ./a 1
+0
move ./a ./b
move ./a ./b
hunk ./b 1
+0
}

[a file inside moves along
p**d] { addfile ./a/f move ./a ./b
move ./a ./b addfile ./b/f }

[the directory is elsewhere
p**d] { adddir ./d move ./a ./b
move ./a ./b adddir ./d }

[a directory inside moves along
p**d] { adddir ./a/d move ./a ./b
move ./a ./b adddir ./b/d }

[the file is a and is added
p**d] { addfile ./a move ./a ./b }

[the file is a and is removed
p**d] { rmfile ./a move ./a ./b }

[the file is b
p**d] {
hunk ./b 1
+0
move ./a ./b
}

[the file is inside b
p**d] { addfile ./b/f move ./a ./b }

[the file contains a
p**d] {
hunk ./d 1
+0
move ./d/a ./b
}

[the file contains b
p**d] {
hunk ./d 1
+0
move ./a ./d/b
}

[the directory is a
p**d] { adddir ./a move ./a ./b }

[the directory is b
p**d] { rmdir ./b move ./a ./b }

[the directory is inside b
p**d] { rmdir ./b/d move ./a ./b }

[the directory contains a
p**d] { adddir ./d move ./d/a ./b }

[the directory contains b
p**d] { adddir ./d move ./a ./d/b }

[the move's paths are one
p**d] { addfile ./z move ./a ./a }

[one path of the move contains the other
p**d] { addfile ./z move ./a/b ./a }

[the path would have 32 names
p**d] { addfile ./a/x/x/x/x/x/x/x/x/x/x/x/x/x/x/x/x/x/x/x/x/x/x/x/x/x/x/x/x/x/x move ./a ./b/c
move ./a ./b/c addfile ./b/c/x/x/x/x/x/x/x/x/x/x/x/x/x/x/x/x/x/x/x/x/x/x/x/x/x/x/x/x/x/x }

[the path would have 33 names
p**d] { addfile ./a/x/x/x/x/x/x/x/x/x/x/x/x/x/x/x/x/x/x/x/x/x/x/x/x/x/x/x/x/x/x/x move ./a ./b/c }";

/// A move, and then a work at a path.
pub(crate) const MOVE_THEN_WORK: &str = "\
[the file is elsewhere
p**d] { move ./a ./b addfile ./f
addfile ./f move ./a ./b }

[a hunk goes back with its file
p**d] {
move ./a ./b
hunk ./b 1
+0
hunk ./a 1
+0
move ./a ./b
}

[a file inside goes back
p**d] { move ./a ./b addfile ./b/f
addfile ./a/f move ./a ./b }

[a directory inside goes back
p**d] { move ./a ./b adddir ./b/d
adddir ./a/d move ./a ./b }

[the file is b and is removed
p**d] { move ./a ./b rmfile ./b }

[the file is b and is added
p**d] { move ./a ./b addfile ./b }

[the file is a
p**d] { move ./a ./b addfile ./a }

[the file is inside a
p**d] { move ./a ./b addfile ./a/f }

[the file contains a
p**d] {
move ./d/a ./b
hunk ./d 1
+0
}

[the file contains b
p**d] {
move ./a ./d/b
hunk ./d 1
+0
}

[the directory is b
p**d] { move ./a ./b rmdir ./b }

[the directory is a
p**d] { move ./a ./b adddir ./a }

[the directory is inside a
p**d] { move ./a ./b adddir ./a/d }

[the directory contains a
p**d] { move ./d/a ./b rmdir ./d }

[the directory contains b
p**d] { move ./a ./d/b rmdir ./d }

[the move's paths are one
p**d] { move ./a ./a addfile ./z }

[one path of the move contains the other
p**d] { move ./a ./a/b addfile ./z }";

/// Two moves.
pub(crate) const MOVES: &str = "\
[all four paths are apart
p**d] { move ./a ./b move ./c ./d
move ./c ./d move ./a ./b }

[the first moves what the second moves along
p**d] { move ./d/f ./g move ./d ./e
move ./d ./e move ./e/f ./g }

[b is inside c and moves along
p**d] { move ./a ./c/b move ./c ./d
move ./c ./d move ./a ./d/b }

[d is inside b and goes back
p**d] { move ./a ./b move ./c ./b/d
move ./c ./a/d move ./a ./b }

[c is inside b and goes back
p**d] { move ./a ./b move ./b/c ./d
move ./a/c ./d move ./a ./b }

[c is b
p**d] { move ./a ./b move ./b ./c }

[d is a
p**d] { move ./a ./b move ./c ./a }

[c is a
p**d] { move ./a ./b move ./a ./c }

[d is b
p**d] { move ./a ./b move ./c ./b }

[c is inside a
p**d] { move ./a ./b move ./a/x ./c }

[d is inside a
p**d] { move ./a ./b move ./c ./a/x }

[a is inside d
p**d] { move ./d/a ./b move ./c ./d }

[b is inside d
p**d] { move ./a ./d/b move ./c ./d }

[a is inside c and d is inside b
p**d] { move ./c/a ./b move ./c ./b/d }

[the first's paths are one
p**d] { move ./a ./a move ./c ./d }

[one path of the second contains the other
p**d] { move ./a ./b move ./c ./c/d }

[a path would have 33 names
p**d] { move ./c/x/x/x/x/x/x/x/x/x/x/x/x/x/x/x/x/x/x/x/x/x/x/x/x/x/x/x/x/x/x/x ./b move ./c ./d/e }";
